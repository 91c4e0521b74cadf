// Days known to be open: a few at hand, so that most days of a book need no calendar.
#![tactic(auto)]

ghost use Rattle.std.specs.Prelude.{true, ◌≡◌, ◌<◌, replicate};
ghost use Rattle.calendar.specs.Target.{open_day};
ghost use Rattle.rules.specs.Requests.{open_or_none};
ghost use Rattle.open_days.specs.Days.{AreOpen};

// The slot of a day among the 16 at hand. A remainder by 16 would do as well, but makes the compiler load the day's last byte by itself.
fn slot_of(day: u64) -> usize
    ensures { result < 16 }
{
    (day % 4294967296 * 2654435761 / 268435456 % 16) as usize
}

// Open days at hand, each in its slot: most days of a book are one of a few.
#[derive(Clone, Copy, Debug)]
pub struct OpenDays {
    pub days: [u64; 16],
    pub ghost open: { AreOpen days },
}

impl OpenDays {
    // The first open day alone.
    pub fn new() -> OpenDays
        ensures { result.days ≡ replicate 16 1 }
    {
        OpenDays { days: [1; 16] }
    }

    // Is a day open?
    pub fn is_open(&self, day: u64) -> bool
        ensures { result ≡ open_day day }
    {
        self.days[slot_of(day)] == day || calendar::is_open(day)
    }

    // Puts an open day among those at hand.
    pub fn note(&mut self, day: u64)
        requires { open_day day ≡ true }
    {
        self.days[slot_of(day)] = day;
    }

    // Is a closing day open, or none?
    pub fn is_open_or_none(&self, day: u64) -> bool
        ensures { result ≡ open_or_none day }
    {
        day == 0 || self.is_open(day)
    }

    // Puts a sound closing day among those at hand, where there is one.
    pub fn note_open_or_none(&mut self, day: u64)
        requires { open_or_none day ≡ true }
    {
        if day != 0 {
            self.note(day);
        }
    }
}
