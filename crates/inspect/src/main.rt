// Inspects the block memory on standard input, and prints what it finds.
#![tactic(auto)]

ghost use Rattle.std.specs.Prelude.{◌≡◌, string_bytes};
ghost use Rattle.std.specs.Option.{option_map};
ghost use Rattle.inspect.specs.Arguments.{only_of};

use inspection::inspection_text;
use std::io::{Read, Write};
use std::{env, io};

// The argument, if there is exactly one.
fn only(arguments: &[String]) -> Option<&str>
    ensures { option_map (λ x. x.now) result ≡ only_of string_bytes arguments.now }
{
    match arguments {
        [argument] => Some(argument.as_str()),
        _ => None,
    }
}

// The arguments after the program's own name; none where one is no text, so that the usage is printed.
fn arguments(rt: &HostRuntime) -> io::Result<Vec<String>> {
    match env::args(rt) {
        Ok(all) => Ok(all.skip(1).collect(rt.alloc())?),
        Err(error) if error.kind() == io::ErrorKind::InvalidData => Ok(Vec::new(rt.alloc())),
        Err(error) => Err(error),
    }
}

fn main(rt: HostRuntime) -> io::Result<()> {
    let heap = rt.alloc();
    let arguments = arguments(&rt)?;
    let mut memory = Vec::new(heap);
    rt.stdin().read_to_end(&mut memory)?;
    let text = inspection_text(heap, only(arguments.as_slice()), memory.as_slice())?;
    rt.stdout().write_all(text.as_bytes())
}
