//! Notes in a text of lines: for people, and passed over.
ghost use Rattle.std.specs.Prelude.{◌≡◌};
ghost use Rattle.std.specs.List.{list_all};
ghost use Rattle.std.specs.Option.{option_map};
ghost use Rattle.bac_text.specs.Notes.{is_blank, is_note, read_of, without_return};

use bac_value_text::parts_at;

fn are_blank(text: &[u8]) -> bool
    ensures { result ≡ list_all is_blank text.now }
{
    text.iter().all(|octet| *octet == b' ' || *octet == b'\t')
}

/// The line without the carriage return at its end.
fn without_return(line: &[u8]) -> &[u8]
    ensures { result.now ≡ without_return line.now }
{
    match parts_at(b'\r', line) {
        Some((front, [])) => front,
        _ => line,
    }
}

fn is_note(line: &[u8]) -> bool
    ensures { result ≡ is_note line.now }
{
    match line {
        [] => true,
        [first, ..] => *first == b'#' || are_blank(line),
    }
}

/// What is to be read of a line, without its end. Where notes are taken, the line may end in a carriage return, which is no part of it. None then
/// says that it is a note: a blank line, or one that begins with `#`. Where they are not, all of the line is to be read.
pub fn read_of(notes: bool, line: &[u8]) -> Option<&[u8]>
    ensures { option_map (λ l. l.now) result ≡ read_of notes line.now }
{
    if !notes {
        return Some(line);
    }
    let line = without_return(line);
    if is_note(line) { None } else { Some(line) }
}
