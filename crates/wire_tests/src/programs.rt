use script_check::{Checked, check};
use script_parser::parse;
use std::alloc::Global;
use std::test::Fail;

/// The counter program.
pub const COUNTER: &str = "type counter {
  field total = 0;
  method add(n) createorjoin update { set total = total + n; return total; }
  method read() createorjoin read { return total; }
}
";

/// A program of two types, with methods of none, one and two parameters.
pub const BANK: &str = "type account {
  method read() create plain { }
  method move(to, n) create plain { }
}
type atm {
  method move(from) create plain { }
  method stop() create plain { }
}
";

/// The program that a text is.
pub fn program_of(alloc: Global, text: &str) -> Result<Checked, Fail> {
    if text.len() > 1000 {
        return Err("too long".into());
    }
    let program = parse(alloc, text.as_bytes()).map_err(|_| "no program")?;
    check(alloc, program).map_err(|_| "no program".into())
}
