// The names of a folder's files, made where they are needed: none is kept. The longest has three numbers of at most ten digits, and
// 12 bytes beside.
ghost use Rattle.std.specs.Prelude.{◌≡◌, ◌+◌, ◌≤◌, ◌++◌, length, codes, decimal};
ghost use Rattle.arrayvec.specs.ArrayString.{array_string_len};
ghost use Rattle.host_trait.specs.Files.{name_of};

use arrayvec::ArrayString;
use host_trait::FileId;
use itoa::Buffer;

// Appends a number in decimal.
fn push_number(name: &mut ArrayString<48>, number: u32)
    requires { array_string_len name.old + 10 ≤ 48 }
    ensures bytes { name.new.bytes ≡ name.old.bytes ++ decimal number }
    ensures room { array_string_len name.new ≤ array_string_len name.old + 10 }
{
    let mut digits = Buffer::new();
    name.push_str(digits.format(number));
}

// The name of a slot's file of this kind.
fn name_in_slot(kind: &str, slot: u8) -> ArrayString<48>
    requires { length kind.now ≤ 8 }
    ensures { result.bytes ≡ kind.now ++ (decimal slot ++ codes ".otx") }
{
    let mut name = ArrayString::new();
    name.push_str(kind);
    push_number(&mut name, slot as u32);
    name.push_str(".otx");
    name
}

// The name of a slot's file of this grain.
fn name_of_grain(slot: u8, kind: u16, key: u32) -> ArrayString<48>
    ensures { result.bytes ≡ codes "grain-" ++ (decimal slot ++ (codes "-" ++ (decimal kind ++ (codes "-" ++ (decimal key ++ codes ".otx"))))) }
{
    let mut name = ArrayString::new();
    name.push_str("grain-");
    push_number(&mut name, slot as u32);
    name.push_str("-");
    push_number(&mut name, kind as u32);
    name.push_str("-");
    push_number(&mut name, key);
    name.push_str(".otx");
    name
}

/// The name of a file, by no memory but its own.
pub fn name_of(file: FileId) -> ArrayString<48>
    ensures { result.bytes ≡ name_of file }
{
    match file {
        FileId::Program { slot } => name_in_slot("program-", slot),
        FileId::Manager { slot } => name_in_slot("manager-", slot),
        FileId::Grain { slot, grain } => name_of_grain(slot, grain.kind, grain.key),
    }
}
