//! The arguments of a program.
ghost use Rattle.std.specs.Prelude.{◌≡◌, drop};

use std::rt::Env;
use std::{env, io};

/// All arguments but the first, which is the program's name.
fn after_name(mut args: Vec<String>) -> Vec<String>
    ensures { result.items ≡ drop 1 args.items }
{
    if !args.is_empty() {
        let _name = args.remove(0);
    }
    args
}

/// The arguments after the program's name. An argument that isn't UTF-8 belongs to no command, so there are none then.
pub fn words_of<R: Env + AllocGlobal>(rt: &R) -> io::Result<Vec<String>> {
    match env::args(rt) {
        Ok(args) => {
            // `collect` would go on where there is no room for all of them.
            let mut words = Vec::with_capacity(rt.alloc(), args.len())?;
            words.extend(args)?;
            Ok(after_name(words))
        }
        Err(e) if e.kind() == io::ErrorKind::InvalidData => Ok(Vec::new(rt.alloc())),
        Err(e) => Err(e),
    }
}
