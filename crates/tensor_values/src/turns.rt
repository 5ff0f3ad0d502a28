//! Two operands that alternate: n places of the first, then m places of the second, and so on to
//! the end of both. Concatenations and pads are read like this. A change touches
//! `specs/Interleaving`, `interleaved_index` of tensor_terms and `gather/interleaved` of
//! tensor_loops.

ghost use Rattle.std.specs.Prelude.{◌≡◌, ◌<◌, ◌≤◌, ◌+◌, ◌-◌, ◌%◌, min, if◌then◌else◌};
ghost use Rattle.tensor_shape.specs.Legal.{most_elements};

/// How many places each operand has in one turn.
#[derive(Clone, Copy, Drop)]
pub struct Turns {
    /// Places of the first operand in a turn.
    pub first: usize,
    /// Places of the second operand in a turn.
    pub second: usize,
    ghost some: { 0 < first + second },
    ghost few: { first + second ≤ most_elements },
}

impl Turns {
    ghost use Rattle.tensor_values.specs.Interleaving.{is_of_first, firsts_before, seconds_before};
    ghost use Rattle.tensor_values.specs.Interleaving.{end_of_turn};

    /// Whether a place is one of the first operand.
    pub fn is_of_first(self, place: usize) -> bool
        ensures { result ≡ is_of_first self.first self.second place }
    {
        place % (self.first + self.second) < self.first
    }

    /// Returns how many places of the first operand precede a place. If the place itself is one of
    /// the first operand, this is its place in that operand.
    pub fn firsts_before(self, place: usize) -> usize
        ensures { result ≡ firsts_before self.first self.second place }
    {
        let width = self.first + self.second;
        place / width * self.first + (place % width).min(self.first)
    }

    /// Returns how many places of the second operand precede a place. If the place itself is one of
    /// the second operand, this is its place in that operand.
    pub fn seconds_before(self, place: usize) -> usize
        ensures { result ≡ seconds_before self.first self.second place }
    {
        let width = self.first + self.second;
        place / width * self.second + (place % width).saturating_sub(self.first)
    }

    /// Returns the end of the run of places of one operand in which a place lies, or `limit` if the
    /// run is longer.
    pub fn end_after(self, place: usize, limit: usize) -> usize
        requires { place < limit }
        ensures end { result ≡ min (end_of_turn self.first self.second place) limit }
        ensures above { place < result }
        ensures below { result ≤ limit }
        ensures turn { place % (self.first + self.second) + (result - place)
            ≤ (if is_of_first self.first self.second place
            then self.first else self.first + self.second) }
    {
        let width = self.first + self.second;
        let index = place % width;
        let end = if index < self.first {
            self.first
        } else {
            width
        };
        place + (end - index).min(limit - place)
    }
}
