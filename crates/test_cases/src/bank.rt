/// A bank program: accounts, a machine that moves money between two of them, and a type of the other options.
pub const BANK: &str = r#"type account {
  field balance = 0;
  method deposit(n) createorjoin update { set balance = balance + n; return balance; }
  method withdraw(n) createorjoin update {
    if balance < n { fail "funds"; }
    set balance = balance - n;
    return balance;
  }
  method read() createorjoin read { return balance; }
}
type atm {
  method transfer(a, b, n) create plain {
    call account/a.withdraw(n);
    call account/b.deposit(n);
    return n;
  }
}
type probe {
  field total = 0;
  method spin(n) create plain { let i = 0; while i < n { i = i + 1; } return i; }
  method needs() join plain { return 1; }
  method lone() notallowed plain { return 1; }
  method calls_lone() create plain { let x = call probe/0.lone(); return x; }
  method inner() create update { set total = total + 100; return total; }
  method outer() create update {
    set total = total + 1;
    attempt r = call probe/key.inner() { return r; } else { set total = total + 10; }
    return total;
  }
  method aside(a, n) suppress plain { call account/a.deposit(n); return 0; }
  method split(a, n) create plain { call probe/0.aside(a, n); fail "after"; }
}
"#;
