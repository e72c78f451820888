//! How the open sections change from one section record to the next.
ghost use Rattle.std.specs.Prelude.{◌≡◌, [], Some, None, MatchOption};
ghost use Rattle.admission.specs.Sound.{unwound, longest, taken, letters_sound, roomy, section_sound};
ghost use Rattle.admission.specs.Stack.{open_of, entered};

use super::{Opened, Path};
use arrayvec::ArrayVec;
use table::limits::RESOURCES;
use table::records::SectionRecord;

/// Whether two sets lie within 26 letters, and no resource stands in both.
fn letters_sound(small: u32, capital: u32) -> bool
    ensures { result ≡ letters_sound small capital }
{
    small < 1 << RESOURCES && capital < 1 << RESOURCES && small & capital == 0
}

impl Path {
    /// No section is open.
    pub fn new() -> Path
        ensures { open_of result ≡ [] }
    {
        Path {
            opened: ArrayVec::new(),
        }
    }

    /// Closes what the next section does not stand inside, if it stands right inside this one; none where this one is not open.
    fn unwind(&mut self, around: Option<usize>) -> Option<()>
        ensures { MatchOption result (unwound around (open_of self.old) ≡ None) (λ _. unwound around (open_of self.old) ≡ Some (open_of self.new)) }
    {
        let depth = match around {
            Some(number) => self.opened.iter().rposition(|o| o.number == number)? + 1,
            None => 0,
        };
        self.opened.truncate(depth);
        Some(())
    }

    /// How long a section may be inside the open ones: outermost it goes by its task's run time.
    fn longest(&self, cost: u32) -> u32
        ensures { result ≡ longest cost (open_of self.now) }
    {
        self.opened.last().map_or(cost, |o| o.length)
    }

    /// The resources that the open sections name.
    fn taken(&self) -> u32
        ensures { result ≡ taken (open_of self.now) }
    {
        self.opened.last().map_or(0, |o| o.letters)
    }

    /// Whether a section of this length has room inside the open ones, and nesting stays at most 8.
    fn has_room(&self, cost: u32, length: u32) -> bool
        ensures { result ≡ roomy cost (open_of self.now) length }
    {
        length >= 1 && length <= self.longest(cost) && !self.opened.is_full()
    }

    /// Whether a section of this task keeps the rules inside the open ones.
    fn admits(&self, owner: usize, cost: u32, section: &SectionRecord) -> bool
        ensures { result ≡ section_sound owner cost (open_of self.now) section.now }
    {
        section.task == owner
            && letters_sound(section.small, section.capital)
            && (section.small | section.capital) & self.taken() == 0
            && self.has_room(cost, section.length)
    }

    /// Opens the next section, after closing what it does not stand inside; none where it breaks a rule.
    pub fn enter(
        &mut self,
        owner: usize,
        cost: u32,
        number: usize,
        section: &SectionRecord,
    ) -> Option<()>
        ensures { MatchOption result (entered owner cost number (open_of self.old) section.now ≡ None) (λ _. entered owner cost number (open_of self.old) section.now ≡ Some (open_of self.new)) }
    {
        self.unwind(section.around)?;
        if !self.admits(owner, cost, section) {
            return None;
        }
        let letters = section.small | section.capital | self.taken();
        self.opened.push(Opened {
            number,
            length: section.length,
            letters,
        });
        Some(())
    }
}
