//! A case: a source, and what is to come of it.
use crate::driving::{Found, markup_of, query_of};
use crate::outline::outline_of;
use crate::sources::written_out;
use crate::tokens::{fault_line, tokens_line, tokens_of};
use grammar_engine::read_whole;
use std::alloc::{AllocError, Global};
use surface_grammar::{Form, ParseFault, Part, Tree};
use surface_tree::Tokens;
use ur_parser::{parse, parse_interface};

/// How a source is read.
#[derive(Clone, Copy)]
enum Reader {
    /// By the lexer alone: its shape is its tokens, parted by `|`.
    Lexer,
    /// As a whole text of this part, by the engine.
    Whole(Part),
    /// As a module.
    Module,
    /// As an interface.
    Interface,
    /// The nodes behind the first token, by the reader of markup; what they leave is read by the engine.
    Markup,
    /// The query behind the first token, by the reader of queries.
    Query,
}

/// The reader of this name.
fn reader_of(name: &str) -> Option<Reader> {
    match name {
        "tokens" => Some(Reader::Lexer),
        "kind" => Some(Reader::Whole(Part::One(Form::KindTerm))),
        "con" => Some(Reader::Whole(Part::One(Form::Con))),
        "pat" => Some(Reader::Whole(Part::One(Form::Pat))),
        "exp" => Some(Reader::Whole(Part::One(Form::Exp))),
        "value" => Some(Reader::Whole(Part::One(Form::SqlOr))),
        "decl" => Some(Reader::Whole(Part::Many(Form::Decl))),
        "module" => Some(Reader::Module),
        "interface" => Some(Reader::Interface),
        "markup" => Some(Reader::Markup),
        "query" => Some(Reader::Query),
        _ => None,
    }
}

/// The line of a tree for the part, whose first token is the one at the place, or of its fault.
fn line_of(
    alloc: Global,
    source: &str,
    tokens: &Tokens,
    part: Part,
    first: usize,
    read: Result<Tree, ParseFault>,
) -> Result<String, AllocError> {
    match read {
        Ok(tree) => {
            let line = outline_of(alloc, source.as_bytes(), tokens, part, first, &tree)?;
            let shape = String::from_utf8_lossy(alloc, line.as_slice())?;
            format!(in alloc; "= {}", shape.as_str())
        }
        Err(ParseFault::Syntax { at }) => format!(in alloc; "! Syntax {at}"),
        Err(ParseFault::TooDeep { at }) => format!(in alloc; "! TooDeep {at}"),
        Err(ParseFault::Memory) => String::from_str(alloc, "! Memory"),
    }
}

/// The tree that was found.
fn tree_of(found: Result<Found, ParseFault>) -> Result<Tree, ParseFault> {
    match found {
        Ok(found) => Ok(found.tree),
        Err(fault) => Err(fault),
    }
}

/// What comes of the source, as a case writes it.
fn answer(alloc: Global, reader: Reader, source: &str) -> Result<String, AllocError> {
    let tokens = match tokens_of(alloc, source) {
        Ok(tokens) => tokens,
        Err(fault) => {
            let line = fault_line(alloc, fault)?;
            return format!(in alloc; "! {}", line.as_str());
        }
    };
    match reader {
        Reader::Lexer => {
            let line = tokens_line(alloc, &tokens)?;
            format!(in alloc; "= {}", line.as_str())
        }
        Reader::Whole(part) => {
            let read = read_whole(alloc, &tokens, part);
            line_of(alloc, source, &tokens, part, 0, read)
        }
        Reader::Module => {
            let read = parse(alloc, &tokens);
            line_of(alloc, source, &tokens, Part::Many(Form::Decl), 0, read)
        }
        Reader::Interface => {
            let read = parse_interface(alloc, &tokens);
            line_of(
                alloc,
                source,
                &tokens,
                Part::Many(Form::InterfaceItem),
                0,
                read,
            )
        }
        Reader::Markup => {
            let read = tree_of(markup_of(alloc, &tokens, 1));
            line_of(alloc, source, &tokens, Part::Many(Form::Node), 1, read)
        }
        Reader::Query => {
            let read = tree_of(query_of(alloc, &tokens, 1));
            line_of(alloc, source, &tokens, Part::One(Form::Sql), 1, read)
        }
    }
}

/// The cases that were tried, and the source whose line comes next.
#[derive(Drop)]
pub struct Trial {
    alloc: Global,
    reader: Option<Reader>,
    source: String,
    count: u32,
    /// How many cases were tried.
    pub tried: u32,
    /// How many came out otherwise.
    pub wrong: u32,
}

/// The reader, the count and the source that the line names.
fn case_of(line: &str) -> Option<(Reader, u32, &str)> {
    let (head, written) = line.split_once(": ")?;
    let (name, count) = match head.split_once("*") {
        Some((name, digits)) => (name, digits.parse::<u32>().ok()?),
        None => (head, 1),
    };
    Some((reader_of(name)?, count, written))
}

/// Whether the answer is the wanted one; `.` wants any tree.
fn is_wanted(answer: &str, wanted: &str) -> bool {
    answer == wanted || wanted == "." && answer.starts_with("= ")
}

impl Trial {
    /// No case was tried.
    pub fn new(alloc: Global) -> Trial {
        Trial {
            alloc,
            reader: None,
            source: String::new(alloc),
            count: 1,
            tried: 0,
            wrong: 0,
        }
    }

    /// Takes the next line. Where it ends a case that comes out otherwise, it gives what is to be told.
    pub fn take(&mut self, line: &str) -> Result<Option<String>, AllocError> {
        if let Some(reader) = self.reader {
            self.reader = None;
            let found = answer(self.alloc, reader, self.source.as_str())?;
            self.tried = self.tried.saturating_add(1);
            let wanted = written_out(self.alloc, line, self.count)?;
            if is_wanted(found.as_str(), wanted.as_str()) {
                return Ok(None);
            }
            self.wrong = self.wrong.saturating_add(1);
            let source = self.source.as_str();
            return Ok(Some(format!(in self.alloc;
                "{source}\nwants {line}\nfound {}",
                found.as_str()
            )?));
        }
        if let Some((reader, count, written)) = case_of(line) {
            self.source = written_out(self.alloc, written, count)?;
            self.count = count;
            self.reader = Some(reader);
        }
        Ok(None)
    }
}
