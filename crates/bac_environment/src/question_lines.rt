//! Requests of lines: those of a text, each by its number.
ghost use Rattle.std.specs.Prelude.{◌≡◌, ◌<◌, [], ◌∷◌, length, map, string_bytes, true, IfErr, IfOk, IfSome, IsErrOf, IsTrue, MatchOption, None, Some};
ghost use Rattle.std.specs.Option.{option_map};
ghost use Rattle.bac_ask_report.specs.Records.{name_view};
ghost use Rattle.bac_npdu.specs.Views.{peer_view};
ghost use Rattle.bac_driver.specs.Views.{question_view};
ghost use Rattle.bac_text.specs.Statuses.{IsStop};
ghost use Rattle.bac_text.specs.Notes.{read_of as read_in};
ghost use Rattle.bac_environment.specs.QuestionLines.{asker_view};
ghost use Rattle.bac_environment.specs.QuestionLines.{asker_of, have_names, AddsLine, AreQuestions, AreBadWords, AskNothing, AsksOne, AsksWords, HasNoPeer, HaveBadLine, IsAskedOf, IsBadRead, NamesNone, NamesPeer, line_view, name_in_line, naming, lines_in, names_peer, request_words, without_mark};
ghost use Rattle.bac_environment.specs.LineWords.{is_address, words_of};

use crate::address::read_peer;
use crate::asker::Asker;
use crate::bad_words::{print_bad_line, print_bad_name, print_no_peer, print_open_quote};
use crate::line_name::named_words;
use crate::line_words::{WordsFault, is_address, words_of};
use crate::parts::parts_of;
use crate::source::Source;
use bac_ask_report::LineName;
use bac_commands::read_question;
use bac_driver::Question;
use bac_npdu::Peer;
use bac_service_text::FormFault;
use bac_text::{Status, no_memory, read_of};
use std::alloc::Global;
use std::io::Write;
use std::{io, str};

/// What a line asks.
#[derive(Drop)]
pub struct LineQuestion {
    /// The line's number, counted from 1.
    pub number: u64,
    /// The name that it begins with, if it does.
    pub name: Option<String>,
    /// The request, and the node that is asked.
    pub question: Question,
}

impl LineQuestion {
    /// What a record says of its name, in a list in which lines have names or not.
    fn naming(&self, has_names: bool) -> LineName<'_>
        ensures { name_view result ≡ naming has_names (name_in_line self.now) }
    {
        match &self.name {
            Some(name) => LineName::Named(name.as_str()),
            None if has_names => LineName::Without,
            None => LineName::Unnamed,
        }
    }

    /// The same line, as records name who asks, in a list in which lines have names or not.
    pub fn asker(&self, has_names: bool) -> Asker<'_>
        ensures { asker_view result ≡ asker_of has_names self.now }
    {
        Asker {
            line: Some(self.number),
            name: self.naming(has_names),
        }
    }
}

/// Whether a line of a list has a name.
pub fn have_names(lines: &[LineQuestion]) -> bool
    ensures { result ≡ have_names lines.now }
{
    lines.iter().any(|line| line.name.is_some())
}

/// Whether the first word names whom a line is asked of.
fn names_peer(words: &[&[u8]]) -> bool
    ensures is { result ≡ names_peer (map (λ w. w.now) words.now) }
    ensures some { IsTrue result → 0 < length words.now }
{
    match words.first() {
        Some(first) => is_address(*first),
        None => false,
    }
}

/// The words of a line's request: those behind the one that names a peer, if the first does.
fn request_words<'w, 'a>(words: &'w [&'a [u8]]) -> &'w [&'a [u8]]
    ensures { map (λ w. w.now) result.now ≡ request_words (map (λ w. w.now) words.now) }
{
    if names_peer(words) {
        &words[1..]
    } else {
        words
    }
}

/// The peer that a word as `@192.168.1.20:47809` or `@192.168.1.20/5:2A` names. None where it names none.
#[tactic(auto, using(crate::proofs::ReadLines::peer_told, crate::proofs::ReadLines::no_text_told, crate::proofs::ReadLines::empty_told))]
fn peer_named(word: &[u8]) -> Option<Peer>
    ensures { MatchOption result (NamesNone word.now) (λ p. NamesPeer word.now (peer_view p)) }
{
    let (_, text) = word.split_first()?;
    match str::from_utf8(text) {
        Ok(text) => read_peer(text),
        Err(_) => None,
    }
}

/// Whom a line with these words is asked of: the peer that the first names, otherwise that one. None where there is none.
#[tactic(auto, using(crate::proofs::ReadLines::named_asked, crate::proofs::ReadLines::none_named, crate::proofs::ReadLines::default_asked, crate::proofs::ReadLines::no_default, crate::proofs::ReadLines::no_words_asked, crate::proofs::ReadLines::no_words_no_default))]
fn peer_of(default: Option<Peer>, words: &[&[u8]]) -> Option<Peer>
    ensures some { IfSome result (λ p. IsAskedOf (option_map peer_view default) (map (λ w. w.now) words.now) (peer_view p)) }
    ensures none { result ≡ None → HasNoPeer (option_map peer_view default) (map (λ w. w.now) words.now) }
{
    let Some((word, _)) = words.split_first() else {
        return default;
    };
    if is_address(*word) {
        peer_named(*word)
    } else {
        default
    }
}

/// The words of a line, of which a note has none. Where a quote is not closed, `err` and the status say so.
fn words_in<'a, E: Write>(
    source: Source<'_>,
    number: u64,
    line: &'a [u8],
    err: &mut E,
) -> Result<Vec<&'a [u8]>, Status>
    ensures words { IfOk result (λ words. words_of line.now ≡ Some (map (λ w. w.now) words.items)) }
    ensures refused { IsErrOf result Status.CommandLine → words_of line.now ≡ None }
    ensures told { IfErr result IsStop }
{
    match words_of(source.alloc, line) {
        Ok(words) => Ok(words),
        Err(WordsFault::OpenQuote) => Err(print_open_quote(source, number, err)),
        Err(WordsFault::NoMemory) => Err(no_memory(err)),
    }
}

/// What the words of a line ask, where lines that name no peer are asked of that one. Where they ask nothing of anyone, `err` and the status say so.
fn question_of<E: Write>(
    source: Source<'_>,
    default: Option<Peer>,
    number: u64,
    words: &[&[u8]],
    err: &mut E,
) -> Result<Question, Status>
    ensures question { IfOk result (λ q. AsksWords (option_map peer_view default) (map (λ w. w.now) words.now) (question_view q)) }
    ensures refused { IsErrOf result Status.CommandLine → AskNothing (option_map peer_view default) (map (λ w. w.now) words.now) }
    ensures told { IfErr result IsStop }
{
    let Some(peer) = peer_of(default, words) else {
        return Err(print_no_peer(source, number, words, err));
    };
    let request = request_words(words);
    match read_question(source.alloc, peer, request) {
        Ok(question) => Ok(question),
        Err(FormFault::NoForm) => Err(print_bad_line(source, number, request, err)),
        Err(FormFault::NoMemory) => Err(no_memory(err)),
    }
}

/// The name of a line, which its question keeps.
fn kept_name<E: Write>(
    alloc: Global,
    name: Option<&str>,
    err: &mut E,
) -> Result<Option<String>, Status>
    ensures kept { IfOk result (λ n. option_map string_bytes n ≡ option_map (λ t. t.now) name.entry) }
    ensures refused { IsErrOf result Status.CommandLine → ⊥ }
    ensures told { IfErr result IsStop }
{
    let Some(name) = name else {
        return Ok(None);
    };
    match String::from_str(alloc, name) {
        Ok(name) => Ok(Some(name)),
        Err(_) => Err(no_memory(err)),
    }
}

/// What a line with these words asks, and its name. Where they ask nothing of anyone, or the name is none, `err` and the status say so.
#[tactic(auto, using(crate::proofs::ReadLines::asking_nothing_bad, crate::proofs::ReadLines::bad_name_bad))]
fn line_of<E: Write>(
    source: Source<'_>,
    default: Option<Peer>,
    number: u64,
    words: &[&[u8]],
    err: &mut E,
) -> Result<LineQuestion, Status>
    requires { 0 < length words.now }
    ensures asks { IfOk result (λ l. AsksOne (option_map peer_view default) number (map (λ w. w.now) words.now) (line_view l ∷ [])) }
    ensures refused { IsErrOf result Status.CommandLine → AreBadWords (option_map peer_view default) (Some (map (λ w. w.now) words.now)) }
    ensures told { IfErr result IsStop }
{
    let named = match named_words(words) {
        Ok(named) => named,
        Err(word) => return Err(print_bad_name(source, number, word, err)),
    };
    let name = kept_name(source.alloc, named.name, err)?;
    let question = question_of(source, default, number, named.words, err)?;
    Ok(LineQuestion {
        number,
        name,
        question,
    })
}

/// Adds what a line asks; nothing where it is a note.
#[tactic(auto, using(crate::proofs::ReadLines::note_adds, crate::proofs::ReadLines::blank_adds, crate::proofs::ReadLines::request_adds, crate::proofs::ReadLines::bad_words_read))]
fn add_line<E: Write>(
    source: Source<'_>,
    default: Option<Peer>,
    number: u64,
    line: &[u8],
    questions: &mut Vec<LineQuestion>,
    err: &mut E,
) -> Result<(), Status>
    ensures added { IfOk result (λ _. AddsLine (option_map peer_view default) number line.now (map line_view questions.old.items) (map line_view questions.new.items)) }
    ensures refused { IsErrOf result Status.CommandLine → IsBadRead (option_map peer_view default) (read_in true line.now) }
    ensures told { IfErr result IsStop }
{
    let Some(read) = read_of(true, line) else {
        return Ok(());
    };
    let words = words_in(source, number, read, err)?;
    if words.is_empty() {
        return Ok(());
    }
    let line = line_of(source, default, number, &words, err)?;
    match questions.push(line) {
        Ok(()) => Ok(()),
        Err(_) => Err(no_memory(err)),
    }
}

/// What these lines ask.
fn questions_among<E: Write>(
    source: Source<'_>,
    default: Option<Peer>,
    lines: &[&[u8]],
    err: &mut E,
) -> Result<Vec<LineQuestion>, Status>
    ensures read { IfOk result (λ v. AreQuestions (option_map peer_view default) 1 (map (λ l. l.now) lines.now) (map line_view v.items)) }
    ensures refused { IsErrOf result Status.CommandLine → HaveBadLine (option_map peer_view default) (map (λ l. l.now) lines.now) }
    ensures told { IfErr result IsStop }
{
    let mut questions = Vec::new(source.alloc);
    for (place, line) in lines.iter().enumerate() {
        add_line(
            source,
            default,
            place as u64 + 1,
            *line,
            &mut questions,
            err,
        )?;
    }
    Ok(questions)
}

/// How many bad lines are told.
const MOST_TOLD: u64 = 20;

/// Tells the bad lines among these: of the first ones what is wrong with each, and then whether there are more.
fn tell_bad<E: Write>(source: Source<'_>, default: Option<Peer>, lines: &[&[u8]], err: &mut E) {
    let mut told: u64 = 0;
    for (place, line) in lines.iter().enumerate() {
        let number = place as u64 + 1;
        let mut questions = Vec::new(source.alloc);
        if told < MOST_TOLD {
            if add_line(source, default, number, *line, &mut questions, err).is_err() {
                told += 1;
            }
        } else if add_line(
            source,
            default,
            number,
            *line,
            &mut questions,
            &mut io::sink(),
        )
        .is_err()
        {
            let at = source.line(number);
            // if that fails too, only the status is left
            let _ = writeln!(err, "{at}also invalid; there may be more");
            return;
        }
    }
}

/// A text without the byte order mark that some editors put at its beginning.
fn without_mark(text: &[u8]) -> &[u8]
    ensures { result.now ≡ without_mark text.now }
{
    match text {
        [0xEF, 0xBB, 0xBF, rest @ ..] => rest,
        _ => text,
    }
}

/// What the lines of a text ask: a request a line, its words separated by blanks and tabs; one with blanks in it stands in quotes. The first may be the line's name
/// and a colon, as `flow:`; the next one `@` and the peer that is asked, as `@192.168.1.20:47809`, or `@192.168.1.20/5:2A` behind a router; the others are asked of that one, if there is one. Lines may end in
/// CRLF, and in a note that begins with `#`; blank ones are passed over. Where lines name no peer, or their words are no request, `err` says so of each, with the name
/// of the file, and the status does.
pub fn questions_in<E: Write>(
    alloc: Global,
    default: Option<Peer>,
    path: &str,
    text: &[u8],
    err: &mut E,
) -> Result<Vec<LineQuestion>, Status>
    ensures read { IfOk result (λ v. AreQuestions (option_map peer_view default) 1 (lines_in text.now) (map line_view v.items)) }
    ensures refused { IsErrOf result Status.CommandLine → HaveBadLine (option_map peer_view default) (lines_in text.now) }
    ensures told { IfErr result IsStop }
{
    let Ok(lines) = parts_of(alloc, b'\n', without_mark(text)) else {
        return Err(no_memory(err));
    };
    let source = Source { alloc, path };
    match questions_among(source, default, &lines, &mut io::sink()) {
        Ok(questions) => Ok(questions),
        Err(Status::CommandLine) => {
            tell_bad(source, default, &lines, err);
            Err(Status::CommandLine)
        }
        Err(_) => Err(no_memory(err)),
    }
}
