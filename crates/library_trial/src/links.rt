//! Links written and read: every form of value, every refusal, and values of any depth.
use link_router::{Entry, Routes, link_text, read_link};
use std::alloc::{AllocError, Global};
use table_rows::{
    Arguments, Case, Datatype, Datatypes, Part, Parts, Shape, Text, Texts, Wire, Wires,
};

/// What each trial may meet.
type Tested<T> = Result<T, AllocError>;

/// A shape as it is written down beforehand.
#[derive(Clone, Copy)]
enum Sketch {
    Int,
    Words,
    Unit,
    Truth,
    /// A record of the fields `1` and `2`.
    Pair(&'static Sketch, &'static Sketch),
    /// The datatype with this number at one argument.
    Data(u32, &'static Sketch),
    /// What a datatype is taken at.
    Parameter,
}

/// A constructor by its name and what it holds.
type Made = (&'static str, Option<&'static Sketch>);

/// Lists, and a datatype that doubles its argument: `datatype list a = Nil | Cons of a * list a` and
/// `datatype grows a = Whole of a | Twice of grows (a * a)`.
const DATATYPES: [[Made; 2]; 2] = [
    [
        ("Nil", None),
        (
            "Cons",
            Some(&Sketch::Pair(&Sketch::Parameter, &Sketch::Data(0, &Sketch::Parameter))),
        ),
    ],
    [
        ("Whole", Some(&Sketch::Parameter)),
        (
            "Twice",
            Some(&Sketch::Data(1, &Sketch::Pair(&Sketch::Parameter, &Sketch::Parameter))),
        ),
    ],
];

/// Entries of the module Main, each with the shape of its argument, and whether it has a form without fields.
const ENTRIES: [(&str, Sketch, bool); 9] = [
    ("echo", Sketch::Words, false),
    ("number", Sketch::Int, false),
    ("add", Sketch::Int, true),
    ("truth", Sketch::Truth, false),
    ("nothing", Sketch::Unit, false),
    ("list", Sketch::Data(0, &Sketch::Int), false),
    ("pair", Sketch::Pair(&Sketch::Truth, &Sketch::Words), false),
    ("grows", Sketch::Data(1, &Sketch::Int), false),
    ("units", Sketch::Data(1, &Sketch::Unit), false),
];

/// One argument.
fn argument(alloc: Global, shape: Tested<Shape>) -> Tested<Arguments> {
    let mut items = Vec::new(alloc);
    items.push(shape?)?;
    Ok(Arguments { items })
}

/// A field.
fn part(alloc: Global, name: &str, shape: Tested<Shape>) -> Tested<Part> {
    let name = Text::of(alloc, name)?;
    Ok(Part {
        name,
        shape: shape?,
    })
}

/// A record of two fields.
fn pair(alloc: Global, first: Tested<Part>, second: Tested<Part>) -> Tested<Shape> {
    let mut items = Vec::new(alloc);
    items.push(first?)?;
    items.push(second?)?;
    Ok(Shape::Rec(Parts { items }))
}

/// The shape that a sketch is of.
fn shape(alloc: Global, sketch: &Sketch) -> Tested<Shape> {
    match sketch {
        Sketch::Int => Ok(Shape::Int),
        Sketch::Words => Ok(Shape::Words),
        Sketch::Unit => Ok(Shape::Unit),
        Sketch::Truth => Ok(Shape::Truth),
        Sketch::Pair(first, second) => pair(
            alloc,
            part(alloc, "1", shape(alloc, first)),
            part(alloc, "2", shape(alloc, second)),
        ),
        Sketch::Data(place, inner) => {
            Ok(Shape::Data(*place, argument(alloc, shape(alloc, inner))?))
        }
        Sketch::Parameter => Ok(Shape::Parameter(0)),
    }
}

/// A constructor of a datatype.
fn case(alloc: Global, made: Made) -> Tested<Case> {
    let (name, sketch) = made;
    let name = Text::of(alloc, name)?;
    let holds = match sketch {
        Some(sketch) => Some(shape(alloc, sketch)?),
        None => None,
    };
    Ok(Case { name, holds })
}

/// A datatype of two constructors.
fn either(alloc: Global, made: [Made; 2]) -> Tested<Datatype> {
    let mut cases = Vec::new(alloc);
    cases.push(case(alloc, made[0])?)?;
    cases.push(case(alloc, made[1])?)?;
    Ok(Datatype { cases })
}

/// An entry of the module Main.
fn entry(alloc: Global, function: &str, sketch: &Sketch, has_form: bool) -> Tested<Entry> {
    let mut name = Texts::new(alloc);
    name.push(Text::of(alloc, "Main")?)?;
    name.push(Text::of(alloc, function)?)?;
    Ok(Entry {
        name,
        arguments: argument(alloc, shape(alloc, sketch))?,
        form: has_form.then_some(Shape::Unit),
    })
}

/// The datatypes and the entries.
fn routes(alloc: Global) -> Tested<Routes> {
    let mut items = Vec::new(alloc);
    for made in DATATYPES {
        items.push(either(alloc, made)?)?;
    }
    let mut entries = Vec::new(alloc);
    for (function, sketch, has_form) in ENTRIES {
        entries.push(entry(alloc, function, &sketch, has_form)?)?;
    }
    Ok(Routes {
        datatypes: Datatypes { items },
        entries,
    })
}

/// The letters of a link.
fn letters(alloc: Global, link: Tested<Text>) -> Tested<String> {
    link?.as_str().to_string(alloc)
}

/// The link of the call that a path is, with these arguments where there are any, or why it is none.
fn link_of(
    alloc: Global,
    routes: &Routes,
    post: bool,
    path: &Text,
    wires: Option<&Wires>,
) -> Tested<String> {
    match read_link(alloc, routes, post, path) {
        Ok(call) => letters(
            alloc,
            link_text(alloc, routes, call.entry, wires.unwrap_or(&call.wires)),
        ),
        Err(fault) => fault.to_string(alloc),
    }
}

/// The link of the call that a path is, or why it is none.
fn told(alloc: Global, routes: &Routes, post: bool, path: &str) -> Tested<String> {
    let path = Text::of(alloc, path)?;
    link_of(alloc, routes, post, &path, None)
}

/// Paths that are asked for by GET, each with the link of its call or its refusal.
const ASKED: [(&str, &str); 37] = [
    ("/Main/echo/_a%2fb", "/Main/echo/_a%2Fb"),
    ("/Main/echo/_", "/Main/echo/_"),
    ("/Main/echo/_.~-x", "/Main/echo/_.~-x"),
    ("/Main/echo/_%C3%A9+%25", "/Main/echo/_%C3%A9%2B%25"),
    ("/Main/%65cho/_%", "/Main/echo/_%25"),
    ("http://h:80/Main/echo/_", "/Main/echo/_"),
    ("HtTp://h/Main/number/-7", "/Main/number/-7"),
    (
        "/Main/number/9223372036854775807",
        "/Main/number/9223372036854775807",
    ),
    (
        "/Main/number/-9223372036854775808",
        "/Main/number/-9223372036854775808",
    ),
    ("/Main/truth/True", "/Main/truth/True"),
    ("/Main/nothing", "/Main/nothing"),
    ("/Main/list/Nil", "/Main/list/Nil"),
    (
        "/Main/list/Cons/1/Cons/2/Nil",
        "/Main/list/Cons/1/Cons/2/Nil",
    ),
    ("/Main/pair/False/_x", "/Main/pair/False/_x"),
    (
        "/Main/grows/Twice/Twice/Whole/1/2/3/4",
        "/Main/grows/Twice/Twice/Whole/1/2/3/4",
    ),
    ("/Main/units/Twice/Whole", "/Main/units/Twice/Whole"),
    ("Main/echo/_", "NoRoute"),
    ("", "NoRoute"),
    ("/", "NoRoute"),
    ("/Main", "NoRoute"),
    ("/Main/none", "NoRoute"),
    ("https://h/Main/echo/_", "NoRoute"),
    ("/Main/add/1", "OtherMethod"),
    ("/Main/number/x", "BadPiece 0"),
    ("/Main/number/-0", "BadPiece 0"),
    ("/Main/number/+1", "BadPiece 0"),
    ("/Main/number/01", "BadPiece 0"),
    ("/Main/number/9223372036854775808", "BadPiece 0"),
    ("/Main/number/x/y", "BadPiece 0"),
    ("/Main/echo/a", "BadPiece 0"),
    ("/Main/echo/_%FF", "BadPiece 0"),
    ("/Main/truth/true", "BadPiece 0"),
    ("/Main/list/Cons/1/Cons/x", "BadPiece 3"),
    ("/Main/list/Cons/1/Cons/2", "TooFewPieces"),
    ("/Main/number", "TooFewPieces"),
    ("/Main/number/1/2", "TooManyPieces"),
    ("/Main/nothing/", "TooManyPieces"),
];

/// Whether a path has this answer.
fn answers(alloc: Global, routes: &Routes, post: bool, path: &str, answer: &str) -> Tested<bool> {
    Ok(told(alloc, routes, post, path)?.as_str() == answer)
}

/// Whether each path has its answer by GET.
fn all_answer(alloc: Global, routes: &Routes) -> Tested<bool> {
    for (path, answer) in ASKED {
        if !answers(alloc, routes, false, path, answer)? {
            return Ok(false);
        }
    }
    Ok(true)
}

/// Each path's answer by GET, and two by POST.
pub fn paths_are_read(alloc: Global) -> Tested<bool> {
    let routes = routes(alloc)?;
    Ok(
        all_answer(alloc, &routes)?
            && answers(alloc, &routes, true, "/Main/add/1", "/Main/add/1")?
            && answers(alloc, &routes, true, "/Main/echo/_", "OtherMethod")?,
    )
}

/// A path that repeats a piece.
fn repeated(alloc: Global, front: &str, piece: &str, times: u32, back: &str) -> Tested<String> {
    let mut path = String::from_str(alloc, front)?;
    for _ in 0..times {
        path.push_str(piece)?;
    }
    path.push_str(back)?;
    Ok(path)
}

/// Whether the links of long lists are read as they are written.
fn long_lists_are_read(alloc: Global, routes: &Routes) -> Tested<bool> {
    for depth in [300, 3000, 50000] {
        let path = repeated(alloc, "/Main/list", "/Cons/1", depth, "/Nil")?;
        if told(alloc, routes, false, path.as_str())?.as_str() != path.as_str() {
            return Ok(false);
        }
    }
    Ok(true)
}

/// A value of so many constructors, each in the next.
fn deep(alloc: Global, depth: u32) -> Tested<Wires> {
    let mut value = Box::new(alloc, Wire::Unit)?;
    for _ in 0..depth {
        value = Box::new(alloc, Wire::Tagged(Text::of(alloc, "S")?, Some(value)))?;
    }
    let mut wires = Wires::new(alloc);
    wires.push(Box::into_inner(value))?;
    Ok(wires)
}

/// The length of the link of a value of so many constructors, each in the next.
fn length_of_deep(alloc: Global, routes: &Routes, depth: u32) -> Tested<usize> {
    let wires = deep(alloc, depth)?;
    let path = Text::of(alloc, "/Main/echo/_")?;
    Ok(link_of(alloc, routes, false, &path, Some(&wires))?.len())
}

/// Long lists, types that grow, and a deep value.
pub fn values_of_any_depth(alloc: Global) -> Tested<bool> {
    let routes = routes(alloc)?;
    let grown = repeated(alloc, "/Main/grows", "/Twice", 40, "/Whole/1")?;
    let units = repeated(alloc, "/Main/units", "/Twice", 40, "/Whole")?;
    Ok(
        long_lists_are_read(alloc, &routes)?
            && told(alloc, &routes, false, grown.as_str())?.as_str() == "TooFewPieces"
            && told(alloc, &routes, false, units.as_str())?.as_str() == "Memory"
            && length_of_deep(alloc, &routes, 50000)? == 100010,
    )
}
