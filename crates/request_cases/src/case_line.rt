//! The lines of a file of cases, by how they begin. Another kind of line needs an arm in `take` of
//! `cases.rt`, and a word in README.md.

/// A line of a file of cases.
#[derive(Clone, Copy, Drop)]
pub(crate) enum CaseLine<'t> {
    /// An empty line or a note.
    Note,
    /// A name and the text that it stands for from there on.
    Let(&'t str),
    /// The version of the expressions from there on.
    Version(u32),
    /// The cases from there to the end of the file are too large to be answered place by place.
    Large,
    /// The inputs of the expressions from there on.
    Inputs(&'t str),
    /// A whole request text.
    Text(&'t str),
    /// An expression over the last inputs, in the last version.
    Expr(&'t str),
    /// The answer that the last text or expression should have.
    Answer(&'t str),
}

impl<'t> CaseLine<'t> {
    pub(crate) fn of(line: &'t str) -> CaseLine<'t> {
        if line.is_empty() || line.starts_with('#') {
            CaseLine::Note
        } else if let Some(named) = line.strip_prefix("let ") {
            CaseLine::Let(named)
        } else if line == "version 1" {
            CaseLine::Version(1)
        } else if line == "version 2" {
            CaseLine::Version(2)
        } else if line == "large" {
            CaseLine::Large
        } else if let Some(inputs) = line.strip_prefix("inputs ") {
            CaseLine::Inputs(inputs)
        } else if let Some(text) = line.strip_prefix("text ") {
            CaseLine::Text(text)
        } else if let Some(answer) = line.strip_prefix("= ") {
            CaseLine::Answer(answer)
        } else {
            CaseLine::Expr(line)
        }
    }
}
