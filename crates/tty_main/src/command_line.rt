//! The arguments of the program, and the words among them.

ghost use Rattle.std.specs.Prelude.{◌≡◌, IfOk, drop, map, string_bytes};
ghost use Rattle.tty_one.specs.Endings.{texts_of};
ghost use Rattle.tty_main.specs.ExitStatus.{words_after_name};

use std::alloc::{AllocGlobal, Global};
use std::{env, io};
use tty_base::NoMemory;

/// The arguments of a program, its name first; none where one of them is not UTF-8, or where they cannot
/// be had.
pub type Arguments = Option<Vec<String>>;

/// The arguments that the program was started with.
pub fn arguments<R: env::Env + AllocGlobal>(rt: &R) -> Result<Arguments, NoMemory> {
    match env::args(rt) {
        Ok(all) => {
            let mut arguments = Vec::new(rt.alloc());
            for argument in all {
                arguments.push(argument)?;
            }
            Ok(Some(arguments))
        }
        Err(fault) if fault.kind() == io::ErrorKind::OutOfMemory => Err(NoMemory),
        Err(_) => Ok(None),
    }
}

/// The texts of the words after the program's name.
pub(crate) fn words_of(alloc: Global, arguments: &[String]) -> Result<Vec<&str>, NoMemory>
    ensures { IfOk result (λ words. texts_of words.items ≡ words_after_name arguments.now) }
{
    texts(alloc, after_name(arguments))
}

fn after_name(arguments: &[String]) -> &[String]
    ensures { result.now ≡ drop 1 arguments.now }
{
    match arguments {
        [_, words @ ..] => words,
        [] => arguments,
    }
}

fn texts(alloc: Global, words: &[String]) -> Result<Vec<&str>, NoMemory>
    ensures { IfOk result (λ texts. texts_of texts.items ≡ map string_bytes words.now) }
{
    let mut texts = Vec::new(alloc);
    for word in words {
        texts.push(word.as_str())?;
    }
    Ok(texts)
}
