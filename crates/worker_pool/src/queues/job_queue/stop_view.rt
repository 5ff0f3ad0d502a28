//! What the seats at a stop word's table know. `specs/StopPlays` says how each step changes it.

/// What a seat knows. No value of this type exists when the program runs.
pub struct StopView {
    /// What the seat last stored in the stop word, or 0.
    stored: u64,
    /// What the seat's last load found in the stop word, or 0.
    found: u64,
}
