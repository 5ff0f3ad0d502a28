//! Index lists and places of operands, computed from an index list or a place of the result. The
//! cursor calls these modules; a change touches the definitions of index lists in `specs/`.

pub(crate) mod axis_lines;
pub(crate) mod index_parts;
pub(crate) mod interleaved_index;
pub(crate) mod merged;
pub(crate) mod moved_index;
pub(crate) mod windows;
