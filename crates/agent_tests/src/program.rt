// The program of the rows: the bank program, and a type `d` for what that doesn't show.
use program_file::accept;
use script_check::Checked;
use std::alloc::Global;
use test_cases::BANK;

const MORE: &str = r#"type d {
  field f = 0;
  method look() createorjoin read { return f; }
  method mark(v) createorjoin update { set f = v; return f; }
  method alone() create update { set f = f + 1; return f; }
  method fails() create plain { fail "no"; }
  method looks(n) create plain { let i = 0; while i < n { call d/i.look(); i = i + 1; } return i; }
  method marks(n) create plain {
    let i = 0;
    while i < n { call d/(n - 1 - i).mark(i); i = i + 1; }
    return i;
  }
  method nest(n) create plain { if n == 0 { return 0; } let x = call d/0.nest(n - 1); return x + 1; }
  method raises() create plain { let x = call d/1.look(); call d/1.mark(x + 1); return x; }
  method bare() create update { set f = 5; call d/key.alone(); return f; }
  method twice() create plain { call d/1.alone(); call d/1.alone(); return 7; }
  method tries() create plain { attempt r = call d/0.fails() { return 1; } else { return r; } }
  method needs_too() suppress plain { call probe/0.needs(); return 0; }
  method passes() supported plain { let x = call d/3.alone(); return x; }
  method joins() create plain { let x = call d/3.passes(); let y = call probe/0.needs(); return x + y; }
}
"#;

/// The program.
pub fn program(alloc: Global) -> Option<Checked> {
    let text = format!(in alloc; "{BANK}{MORE}").ok()?;
    if text.len() > 262144 {
        return None;
    }
    accept(alloc, text.as_bytes()).ok()
}
