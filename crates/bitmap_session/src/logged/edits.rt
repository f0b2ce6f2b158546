//! Edits of many bits at once in a session with a log. None of them has an entry: the entry of the commit that follows has their bits.

ghost use Rattle.std.specs.Prelude.{◌≡◌, ◌<◌, List, ℕ, length, IfErr, OnOk};
ghost use Rattle.bitmap_session.specs.Abstraction.{reason};
ghost use Rattle.bitmap_session.specs.Edits.{EditsTo, appends_bits, lengthens, reason_in, set_steps, sets_chunk, sets_range, shortens, stopped_steps};
ghost use Rattle.bitmap_session.specs.Laws.{StepsOn};
ghost use Rattle.bitmap_session.specs.Logged.{IsLogged};

use crate::logged::LoggedSession;
use crate::reply::Refusal;

impl<const N: usize> LoggedSession<N> {
    /// Replaces the bits of a chunk of the pending bitmap, as `set_chunk` of a `Session` does. The log is unchanged.
    ///
    /// # Errors
    ///
    /// Those of `Session::set_chunk`.
    ///
    /// # Memory
    ///
    /// As `Session::set_chunk`.
    ///
    /// # Complexity
    ///
    /// As `Session::set_chunk`.
    pub fn set_chunk(&mut self, index: usize, bytes: &[u8; N]) -> Result<(), Refusal>
        ensures edited { EditsTo N self.old.machine (sets_chunk N index bytes.now)
            (reason_in result) self.new.machine }
        ensures log { self.new.log ≡ self.old.log }
        ensures logged { (taken : List ℕ) → IsLogged N taken self.old → IsLogged N taken self.new }
    {
        self.session.set_chunk(index, bytes)
    }

    /// Sets each bit of a range of positions of the pending bitmap to `value`, as `set_range` of a `Session` does. The log is unchanged.
    ///
    /// # Errors
    ///
    /// Those of `Session::set_range`.
    ///
    /// # Memory
    ///
    /// As `Session::set_range`.
    ///
    /// # Complexity
    ///
    /// As `Session::set_range`.
    pub fn set_range(&mut self, start: u64, end: u64, value: bool) -> Result<(), Refusal>
        ensures edited { EditsTo N self.old.machine (sets_range N start end value)
            (reason_in result) self.new.machine }
        ensures log { self.new.log ≡ self.old.log }
        ensures logged { (taken : List ℕ) → IsLogged N taken self.old → IsLogged N taken self.new }
    {
        self.session.set_range(start, end, value)
    }

    /// Shortens the pending bitmap to a length of `len` bits, as `truncate` of a `Session` does. The log is unchanged.
    ///
    /// # Errors
    ///
    /// Those of `Session::truncate`.
    ///
    /// # Memory
    ///
    /// Does not allocate.
    ///
    /// # Complexity
    ///
    /// As `Session::truncate`.
    pub fn truncate(&mut self, len: u64) -> Result<(), Refusal>
        ensures edited { EditsTo N self.old.machine (shortens N len)
            (reason_in result) self.new.machine }
        ensures log { self.new.log ≡ self.old.log }
        ensures logged { (taken : List ℕ) → IsLogged N taken self.old → IsLogged N taken self.new }
    {
        self.session.truncate(len)
    }

    /// Appends zeros to the pending bitmap up to a length of `len` bits, as `extend_to` of a `Session` does. The log is unchanged.
    ///
    /// # Errors
    ///
    /// Those of `Session::extend_to`.
    ///
    /// # Memory
    ///
    /// As `Session::extend_to`.
    ///
    /// # Complexity
    ///
    /// As `Session::extend_to`.
    pub fn extend_to(&mut self, len: u64) -> Result<(), Refusal>
        ensures edited { EditsTo N self.old.machine (lengthens N len)
            (reason_in result) self.new.machine }
        ensures log { self.new.log ≡ self.old.log }
        ensures logged { (taken : List ℕ) → IsLogged N taken self.old → IsLogged N taken self.new }
    {
        self.session.extend_to(len)
    }

    /// Appends bits to the pending bitmap, all of them or none, as `push_bits` of a `Session` does. The log is unchanged.
    ///
    /// # Errors
    ///
    /// Those of `Session::push_bits`.
    ///
    /// # Memory
    ///
    /// As `Session::push_bits`.
    ///
    /// # Complexity
    ///
    /// As `Session::push_bits`.
    pub fn push_bits(&mut self, bits: &[bool]) -> Result<(), Refusal>
        ensures edited { EditsTo N self.old.machine (appends_bits N bits.now)
            (reason_in result) self.new.machine }
        ensures log { self.new.log ≡ self.old.log }
        ensures logged { (taken : List ℕ) → IsLogged N taken self.old → IsLogged N taken self.new }
    {
        self.session.push_bits(bits)
    }

    /// Sets the bit at each position of the pending bitmap to `value`, up to the first position that is refused, as `set_many` of a `Session`
    /// does. The log is unchanged.
    ///
    /// # Errors
    ///
    /// Those of `Session::set_many`.
    ///
    /// # Memory
    ///
    /// As `Session::set_many`.
    ///
    /// # Complexity
    ///
    /// As `Session::set_many`.
    pub fn set_many(&mut self, positions: &[u64], value: bool) -> Result<(), (usize, Refusal)>
        ensures all { OnOk result (StepsOn N self.old.machine
            (set_steps N positions.now value) self.new.machine) }
        ensures count { IfErr result (λ e. e.0 < length positions.now) }
        ensures stopped { IfErr result (λ e. StepsOn N self.old.machine
            (stopped_steps N positions.now value e.0 (reason e.1)) self.new.machine) }
        ensures log { self.new.log ≡ self.old.log }
        ensures logged { (taken : List ℕ) → IsLogged N taken self.old → IsLogged N taken self.new }
    {
        self.session.set_many(positions, value)
    }
}
