// Prints the plan and the blocks of a layout: the layout's text is the file that the argument names, or standard input, and the lines of its
// plan and its blocks, or the number of its refusal, are printed. A file, a read or a write that fails is told on standard error.
#![tactic(auto)]

mod words;

ghost use Rattle.std.specs.Prelude.{◌≡◌, length, replicate};
ghost use Rattle.strided.specs.Text.{Prints};
ghost use Rattle.walklist.specs.Asking.{Asks};
ghost use Rattle.walklist.specs.Printing.{Received, Printing};

use layout::number;
use std::env::{Env, FillError};
use std::fs::File;
use std::io::{self, Read};
use words::system_words;
use writing::line::put_refusal;

// One byte more than a text may have: a longer one is told by that byte alone.
const TEXT: usize = 16385;

// "The program lends 65,536 bytes for output".
const ROOM: usize = 65536;

// The longest argument that is looked at: one byte more than the name of a file can have.
const ARGUMENT: usize = 4096;

// The form of the texts.
const HELP: &[u8] = br"walklist [FILE]
Prints the plan of a layout and the blocks of its walk. The layout is read from FILE, or from standard input:
  L,purpose,rank,operands,chosen   P or F; the number of the chosen operand, or - for none (P only)
  E,extents                        one for each axis
  O,size,strides                   for each operand its bytes, and a stride in elements for each axis
Numbers are decimal, lines end in LF, and a text has at most 16,384 bytes. It prints:
  K,rank                           the axes of the plan
  A,axis,extent,block,strides      for each axis, the innermost first; a stride for each operand
  B,number,length,offsets          for each block; an offset for each operand
  Z,blocks,cells                   how many there are
  R,number                         and nothing else, if the layout is refused
For instance: printf 'L,P,2,2,-\nE,2,3\nO,8,1,2\nO,8,3,1\n' | walklist
";

// Reads to the end, or until the bytes lent are full. Answers how many bytes were read.
fn read_input<R: Read>(reader: &mut R, text: &mut [u8]) -> io::Result<usize>
    ensures { Received (length text.old) result }
{
    let mut n: usize = 0;
    while n < text.len() {
        let got = reader.read(&mut text[n..])?;
        if got == 0 {
            break;
        }
        n += got;
    }
    Ok(n)
}

// What is printed for a text, in bytes of zeros. It answers how many.
fn list_text(text: &[u8], out: &mut [u8]) -> usize
    requires { out.old ≡ replicate 65536 0 }
    ensures { Printing text.now result out.new }
{
    match text::walklist(text, out) {
        Ok(n) => n,
        Err(refusal) => put_refusal(out, 0, number(refusal)),
    }
}

fn complain(rt: &HostRuntime, message: &[u8]) {
    let _ = rt.stderr().write_all(message);
}

// Writes to standard output: lines of help, or by write_lines a listing.
fn write_out(rt: &HostRuntime, bytes: &[u8]) {
    if rt.stdout().write_all(bytes).is_ok() {
        return;
    }
    complain(rt, b"walklist: cannot write standard output\n");
}

// Writes the lines that are printed for a text, which it asks for so that no other bytes are handed over as a listing.
fn write_lines<'a>(rt: &HostRuntime, text: &'a [u8], lines: &'a [u8])
    requires { Prints text.now lines.now }
{
    write_out(rt, lines);
}

// Prints what is printed for a text.
fn print_text(rt: &HostRuntime, text: &[u8], out: &mut [u8])
    requires { out.old ≡ replicate 65536 0 }
{
    let n = list_text(text, out);
    write_lines(rt, text, &out[..n]);
}

// Prints what is printed for the text that is read.
fn print_input<R: Read>(rt: &HostRuntime, reader: &mut R) {
    let mut text = [0u8; TEXT];
    let mut out = [0u8; ROOM];
    match read_input(reader, &mut text) {
        Ok(n) => print_text(rt, &text[..n], &mut out),
        Err(_) => complain(rt, b"walklist: cannot read the layout\n"),
    }
}

// Prints the help line by line, and tells of each line that cannot be written.
fn print_help(rt: &HostRuntime) {
    for line in HELP.split_inclusive(|b| *b == b'\n') {
        write_out(rt, line);
    }
}

// Whether an argument asks for help.
fn is_help(word: &[u8]) -> bool
    ensures { Asks word.now result }
{
    word == b"--help".as_slice()
}

// Says why a file is not opened.
fn complain_of(rt: &HostRuntime, name: &[u8], why: &str) {
    complain(rt, b"walklist: ");
    complain(rt, name);
    complain(rt, b": ");
    complain(rt, why.as_bytes());
    complain(rt, b"\n");
}

// Prints what is printed for the text in a file. std opens a file by a name in UTF-8 alone.
fn print_file(rt: &HostRuntime, name: &[u8]) {
    let Ok(path) = str::from_utf8(name) else {
        complain_of(
            rt,
            name,
            "the name is not UTF-8; hand the file over as standard input",
        );
        return;
    };
    match File::open(rt, path) {
        Ok(mut file) => print_input(rt, &mut file),
        Err(error) => {
            let mut room = [0u8; 256];
            complain_of(rt, name, system_words(&error, &mut room));
        }
    }
}

// Prints what one argument asks for.
fn print_asked(rt: &HostRuntime, word: &[u8]) {
    if is_help(word) {
        print_help(rt);
        return;
    }
    print_file(rt, word);
}

// Whether there is no second argument.
fn is_alone(rt: &HostRuntime) -> bool {
    matches!(rt.arg(2, &mut []), Err(FillError::NotPresent))
}

fn main(rt: HostRuntime) {
    let mut word = [0u8; ARGUMENT];
    match rt.arg(1, &mut word) {
        Err(FillError::NotPresent) => print_input(&rt, &mut rt.stdin()),
        Ok(length) if is_alone(&rt) => print_asked(&rt, &word[..length]),
        _ => complain(
            &rt,
            b"walklist: one argument at most, a file's name; --help tells the form\n",
        ),
    }
}
