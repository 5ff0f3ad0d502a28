//! Laws of frames and of headers with arrays: which other request means the same as theirs. Each
//! function does nothing, and its contract is the law. The laws rest on `specs/Frame`, `Arrays` and
//! `Filled`.

ghost use Rattle.std.specs.Prelude.{◌≡◌, ◌≢◌, ℕ, ℤ, List, length, map, Some, None, Err, FitsSigned};
ghost use Rattle.std.specs.Int.{w64};
ghost use Rattle.std.specs.List.{All};
ghost use Rattle.serde_json.specs.Data.{Data};
ghost use Rattle.expr_reader.specs.Alike.{AskAlike};
ghost use Rattle.expr_reader.specs.Arrays.{joined, header_sizes, array_inputs};
ghost use Rattle.expr_reader.specs.Filled.{filled_text};
ghost use Rattle.expr_reader.specs.Frame.{frame_inputs, request_of_frame};
ghost use Rattle.expr_reader.specs.Place.{here, unlocated};
ghost use Rattle.expr_reader.specs.Profile.{Versions, profile_of, frame_profile_of};
ghost use Rattle.expr_reader.specs.Request.{Naming, data_asked, version_in};
ghost use Rattle.expr_reader.specs.Tensors.{inputs_in};

use crate::fault::Fault;

/// A frame asks for the same as the text that has the frame's values in the `data` of its tensors,
/// and has the same fault. This holds for any set of versions.
pub fn frames_mean_texts()
    ensures { (versions : Versions) (header text : Data) (values : List ℤ)
        → All (FitsSigned w64) values → filled_text values header ≡ Some text
        → unlocated (data_asked versions (frame_inputs values) header)
        ≡ unlocated (data_asked versions inputs_in text) }
{}

/// A frame whose version is not 3 asks for the same under the versions of frames as under the
/// versions of texts, and has the same fault.
pub fn frames_keep_versions()
    ensures { (named : Naming) (header : Data) → version_in header ≢ Some 3
        → data_asked frame_profile_of named header ≡ data_asked profile_of named header }
{}

/// If the values of a frame can't be written into its header, the frame has the fault of a header
/// whose inputs are no tensors, or a fault that comes before it. They can't if the header is no
/// request, or if its tensors have more or fewer places than there are values.
pub fn unfilled_headers_have_faults()
    ensures { (versions : Versions) (header : Data) (values : List ℤ) → filled_text values header ≡ None
        → unlocated (data_asked versions (frame_inputs values) header)
        ≡ unlocated (data_asked versions (λ bounds inputs. Err (here Fault.BadTensor)) header) }
{}

/// If each array has as many values as its tensor has places, a header with arrays asks for the
/// same as the frame with all arrays joined, and has the same fault.
pub fn arrays_mean_frames()
    ensures { (versions : Versions) (header : Data) (arrays : List (List ℤ))
        → header_sizes header ≡ Some (map length arrays)
        → unlocated (data_asked versions (array_inputs arrays) header)
        ≡ unlocated (data_asked versions (frame_inputs (joined arrays)) header) }
{}

/// If the lengths of the arrays differ from the sizes of the tensors, or there are more or fewer
/// arrays, the fault is the one of a header whose inputs are no tensors, or one that comes before
/// it.
pub fn other_arrays_have_faults()
    ensures { (versions : Versions) (header : Data) (arrays : List (List ℤ))
        → header_sizes header ≢ Some (map length arrays)
        → unlocated (data_asked versions (array_inputs arrays) header)
        ≡ unlocated (data_asked versions (λ bounds inputs. Err (here Fault.BadTensor)) header) }
{}

/// Two frames with one header and equally many values have the same fault, or requests that differ
/// in the values of their inputs alone.
pub fn frames_ask_alike()
    ensures { (header : List ℕ) (values others : List ℤ) → length values ≡ length others
        → AskAlike (request_of_frame header values) (request_of_frame header others) }
{}
