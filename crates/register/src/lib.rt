// A register: records in memory that the caller lends.
#![tactic(auto)]

ghost use Rattle.std.specs.Prelude.{◌≡◌, ◌<◌, [], ◌∷◌, length, drop, if◌then◌else◌, Ok, Err, nat_lt};
ghost use Rattle.std.specs.List.{slice_get};
ghost use Rattle.register.specs.Registers.{Wrote, free, records};

mod full;

pub use full::Full;

/// Lent places and a count: so many places hold records, from the first on, and the others are free.
// No `Vec`: the memory is the caller's, so that no call fails for want of it.
#[derive(Drop)]
pub struct Register<'a, R> {
    places: &'a mut [R],
    count: usize,
}

impl<'a, R: Copy> Register<'a, R> {
    /// A register without records over the lent places.
    pub fn new(places: &'a mut [R]) -> Self
        ensures empty { result.count ≡ 0 }
        ensures lent { result.places.now ≡ places.old }
        ensures same { result.places.ghost_name ≡ places.entry.ghost_name }
    {
        Register { places, count: 0 }
    }

    /// How many records were written.
    pub fn len(&self) -> usize
        ensures { result ≡ self.now.count }
    {
        self.count
    }

    /// How many places are free.
    pub fn room(&self) -> usize
        ensures { result ≡ length (free self.now) }
    {
        self.places.len().saturating_sub(self.len())
    }

    /// Whether that many lines can be written: refuses where fewer places are free.
    pub fn room_for(&self, lines: usize) -> Result<(), Full>
        ensures { result ≡ (if nat_lt (length (free self.now)) lines then Err (record {}) else Ok tt) }
    {
        if self.room() < lines {
            return Err(Full);
        }
        Ok(())
    }

    /// Adds a record after the others; a full register refuses, and nothing changes.
    pub fn write(&mut self, entry: R) -> Result<(), Full>
        ensures fits { 0 < length (free self.old) → (result ≡ Ok tt) × Wrote self.old (entry ∷ []) self.new }
        ensures full { length (free self.old) ≡ 0 → (result ≡ Err (record {})) × (self.new ≡ self.old) }
    {
        self.room_for(1)?;
        let Register { places, count } = self;
        places[*count] = entry;
        *count += 1;
        Ok(())
    }

    /// The record at a place; nothing at or past the count.
    pub fn read(&self, place: usize) -> Option<R>
        ensures { result ≡ slice_get (records self.now) place }
    {
        self.written().get(place).copied()
    }

    /// The records from a place on; none at or past the count.
    pub fn since(&self, place: usize) -> &[R]
        ensures { result.now ≡ drop place (records self.now) }
    {
        self.written().get(place..).unwrap_or(&[])
    }

    /// All records.
    fn written(&self) -> &[R]
        ensures { result.now ≡ records self.now }
    {
        &self.places[..self.len().min(self.places.len())]
    }
}
