//! The words of a command line.

ghost use Rattle.std.specs.Prelude.{IfErr, IfOk, map, string_bytes, ◌∷◌, ◌≡◌};
ghost use Rattle.argus_cli.specs.Usage.{IsMistake};

use crate::no_options::NoOptions;
use std::alloc::{AllocError, Global};
use std::rt::Env;
use std::{env, io};

// The text with which a program ends if a word isn't UTF-8, as `clap` words it.
const NOT_UTF_8: &str = "error: invalid UTF-8 was detected in one or more arguments\n\n\
    For more information, try '--help'.\n";

/// The words after the program's name.
///
/// `Usage`: one of them isn't UTF-8; the status is 2. `Memory`: there is no memory for them.
///
/// ```text
/// let words = words_given(&rt)?;       // of `argus --list bases`: two
/// ```
pub fn words_given(rt: &(impl Env + AllocGlobal)) -> Result<Vec<String>, NoOptions>
    ensures refused { IfErr result IsMistake }
{
    match env::args(rt) {
        Ok(words) => Ok(behind_name(rt.alloc(), words)?),
        Err(error) if error.kind() == io::ErrorKind::InvalidData => Err(NoOptions::Usage {
            status: 2,
            text: String::from_str(rt.alloc(), NOT_UTF_8)?,
        }),
        Err(_) => Err(NoOptions::Memory),
    }
}

// The words without the first, which is the program's name.
fn behind_name(alloc: Global, words: env::Args) -> Result<Vec<String>, AllocError> {
    let mut behind = Vec::new(alloc);
    for word in words.skip(1) {
        behind.push(word)?;
    }
    Ok(behind)
}

/// The program's name, and the words after it: the list that `clap` reads.
///
/// `AllocError`: there is no memory for the list.
pub fn with_name<'a>(
    alloc: Global,
    name: &'a str,
    words: &'a [String],
) -> Result<Vec<&'a str>, AllocError>
    ensures { IfOk result (λ all. map (λ word. word.now) all.items
        ≡ name.now ∷ map string_bytes words.now) }
{
    let mut all = Vec::new(alloc);
    all.push(name)?;
    for word in words {
        all.push(word.as_str())?;
    }
    Ok(all)
}
