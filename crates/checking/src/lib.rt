// What the programs do: read an input whole, have it checked, write its report, and tell what it all came to. The parts that are public serve `registering` too. What is read and written no contract can say.
#![tactic(auto)]

ghost use Rattle.std.specs.Prelude.{◌≡◌, ◌≤◌, max, length, IfOk};
ghost use Rattle.verdict.specs.Answers.{verdict_outcome};
ghost use Rattle.checking.specs.Status.{digit, Tells, Comes, Within};

mod outputs;
mod paths;
mod reasons;

pub use outputs::{close_output, write_output};
pub use reasons::tell_why;
use std::env::{Env, FillError};
use std::fs::Files;
use std::io::Read;
use verdict::Verdict;

// One byte more than is taken, so that an input that is too long is known to be.
pub const ROOM: usize = 65537;

// Room for the line of the longest path, 4,096 bytes and 6, and for the longest report, 288.
const OUT: usize = 4390;

// Standard error, and the descriptor that the exit status is written to, where it is asked for.
const STDERR_FILENO: i32 = 2;

const STATUS_FILENO: i32 = 9;

// What an input comes to where it has no report, and where what was to be written could not be: after that nothing more is read.
const UNREAD: u8 = 2;

pub const UNWRITTEN: u8 = 3;

// An input that was read: how many bytes its name has and it has. In its place, as an error, what one comes to that was not read.
#[derive(Clone, Copy)]
pub struct Input {
    pub name: usize,
    pub length: usize,
}

// The worse of two.
pub fn worse(a: u8, b: u8) -> u8
    ensures { result ≡ max a b }
{
    if a < b { b } else { a }
}

// The exit status, as a digit.
fn digit_of(status: u8) -> u8
    ensures { result ≡ digit status }
{
    if status < 2 { 48 + status } else { 50 }
}

// A line on standard error, of an input that has no report: what it is, and why.
pub fn complain(what: &[u8], why: &[u8]) -> u8
    ensures { 2 ≤ result }
{
    if !io::write_all(STDERR_FILENO, what) {
        return UNWRITTEN;
    }
    if !io::write_all(STDERR_FILENO, why) {
        return UNWRITTEN;
    }
    UNREAD
}

// The same, where an error says why.
fn fail(what: &[u8], error: std::io::Error) -> u8
    ensures { 2 ≤ result }
{
    if !io::write_all(STDERR_FILENO, what) {
        return UNWRITTEN;
    }
    reasons::tell_why(b"", error);
    UNREAD
}

// A byte of a name on standard error, a line feed as \n.
fn show_byte(b: u8) -> bool {
    if b == b'\n' {
        return io::write_all(STDERR_FILENO, b"\\n");
    }
    io::write_all(STDERR_FILENO, &[b])
}

// A name on standard error, on one line.
fn show_name(name: &[u8]) -> bool {
    for b in name {
        if !show_byte(*b) {
            return false;
        }
    }
    true
}

// A name that is more than one line is not read.
fn refuse_name(name: &[u8]) -> u8
    ensures { 2 ≤ result }
{
    if !show_name(name) {
        return UNWRITTEN;
    }
    complain(b"", b": its name has a line feed\n")
}

// Writes what goes out for an input with this verdict, in one piece; `what` is said on standard error, `name` on standard output.
pub fn write_report(rt: &(impl Env + Print), verdict: Verdict, what: &[u8], name: &[u8]) -> u8
    ensures { Tells (verdict_outcome verdict) result }
{
    let mut out = [0u8; OUT];
    match named_report::output_into(name, verdict, &mut out) {
        Ok(k) => {
            if !outputs::write_output(rt, &out[..k]) {
                return UNWRITTEN;
            }
            named_report::status_of(verdict)
        }
        Err(_) => complain(what, b": no room for its report\n"),
    }
}

// Checks an input that was read whole, and writes its report.
fn check_bytes(rt: &(impl Env + Print), f: &[u8], what: &[u8], name: &[u8]) -> u8
    ensures { Comes f.now result }
{
    write_report(rt, file_report::input_verdict(f), what, name)
}

// Reads until a room is full, the input ends or a read fails.
fn read_full(from: &mut impl Read, room: &mut [u8]) -> std::io::Result<usize>
    ensures { IfOk result (λ n. n ≤ length room.old) }
{
    let mut done: usize = 0;
    // `while`: a turn moves on by what the read gave.
    while done < room.len() {
        let n = from.read(&mut room[done..])?;
        if n == 0 {
            return Ok(done);
        }
        done += n;
    }
    Ok(done)
}

// An input, of which `what` is said on standard error, read whole into a lent room: how many bytes it has. Where its bytes run out one more read tells whether it
// ends there, so that an input whose reading failed, or that grew, is not taken for a short one.
fn read_whole(from: &mut impl Read, what: &[u8], room: &mut [u8]) -> Result<usize, u8>
    ensures { IfOk result (λ n. n ≤ length room.old) }
{
    match read_full(from, room) {
        Err(error) => Err(fail(what, error)),
        Ok(n) => {
            if n < room.len() {
                let mut more = [0u8; 1];
                match from.read(&mut more) {
                    Err(error) => {
                        return Err(fail(what, error));
                    }
                    Ok(got) => {
                        if 0 < got {
                            return Err(complain(what, b": it grew while it was read\n"));
                        }
                    }
                }
            }
            Ok(n)
        }
    }
}

// Standard input: how many bytes it has.
pub fn read_standard(rt: &impl std::io::Input, room: &mut [u8]) -> Result<usize, u8>
    ensures { IfOk result (λ n. n ≤ length room.old) }
{
    read_whole(&mut rt.reader(), b"standard input", room)
}

// The file of a name, which is argument i: how many bytes it has.
fn read_file(rt: &(impl Files + Env), i: usize, name: &[u8], room: &mut [u8]) -> Result<usize, u8>
    ensures { IfOk result (λ n. n ≤ length room.old) }
{
    if !named_report::is_one_line(name) {
        return Err(refuse_name(name));
    }
    match paths::open_argument(rt, i, name) {
        Err(error) => Err(fail(name, error)),
        Ok(mut file) => read_whole(&mut file, name, room),
    }
}

// The file that argument i names, and its name, into lent rooms.
pub fn read_argument(
    rt: &(impl Files + Env),
    i: usize,
    path: &mut [u8],
    room: &mut [u8],
) -> Result<Input, u8>
    ensures { IfOk result (λ input. Within input.name input.length (length path.old) (length room.old)) }
{
    match rt.arg(i, path) {
        Err(error) => Err(fail(b"an argument", reasons::of_argument(error))),
        Ok(name) => {
            if name == 0 {
                return Err(complain(b"an argument", b": an empty name\n"));
            }
            let length = read_file(rt, i, &path[..name], room)?;
            Ok(Input { name, length })
        }
    }
}

// What the file that argument i names comes to.
fn argument<F: Fn(&[u8], &[u8], &[u8]) -> u8>(
    rt: &(impl Files + Env),
    on_input: &F,
    i: usize,
    path: &mut [u8],
    room: &mut [u8],
) -> u8
    requires { F.IsAlwaysCallable on_input.now }
{
    match read_argument(rt, i, path, room) {
        Err(status) => status,
        Ok(input) => {
            let name = &path[..input.name];
            on_input(&room[..input.length], name, name)
        }
    }
}

// What the files that the arguments from one on name come to, up to a write that fails: the worst of it.
fn arguments<F: Fn(&[u8], &[u8], &[u8]) -> u8>(
    rt: &(impl Files + Env),
    on_input: &F,
    first: usize,
    count: usize,
) -> u8
    requires { F.IsAlwaysCallable on_input.now }
{
    let mut path = io::buffer();
    let mut room = [0u8; ROOM];
    let mut worst: u8 = 0;
    for i in first..count {
        worst = worse(worst, argument(rt, on_input, i, &mut path, &mut room));
        if worst == UNWRITTEN {
            return worst;
        }
    }
    worst
}

// What standard input comes to.
fn standard<F: Fn(&[u8], &[u8], &[u8]) -> u8>(rt: &impl std::io::Input, on_input: &F) -> u8
    requires { F.IsAlwaysCallable on_input.now }
{
    let mut room = [0u8; ROOM];
    match read_standard(rt, &mut room) {
        Err(status) => status,
        Ok(n) => on_input(&room[..n], b"standard input", b""),
    }
}

// Is the exit status asked for? An empty first argument does so: it names no file.
pub fn is_asked(rt: &impl Env) -> bool {
    let mut word = [0u8; 1];
    match rt.arg(1, &mut word) {
        Err(_) => false,
        Ok(n) => n == 0,
    }
}

// Writes the exit status to its descriptor.
pub fn tell(status: u8) {
    if !io::write_all(STATUS_FILENO, &[digit_of(status)]) {
        io::write_all(STDERR_FILENO, b"exit status: it could not be written\n");
    }
}

// How many arguments there are, the program's own name with them.
pub fn argument_count(rt: &impl Env) -> usize {
    let mut word = [0u8; 1];
    for i in 0..usize::MAX {
        if let Err(FillError::NotPresent) = rt.arg(i, &mut word) {
            return i;
        }
    }
    usize::MAX
}

// What standard input comes to, or each file that is named from an argument on.
fn inputs<F: Fn(&[u8], &[u8], &[u8]) -> u8>(
    rt: &(impl Files + Env + std::io::Input),
    on_input: &F,
    first: usize,
) -> u8
    requires { F.IsAlwaysCallable on_input.now }
{
    let count = argument_count(rt);
    if count <= first {
        return standard(rt, on_input);
    }
    arguments(rt, on_input, first, count)
}

// A program that reads inputs: what it does with one that was read whole is handed to it. That takes the input's bytes, what is said of it on standard error and its name, and says what it comes to.
pub fn run_with<F: Fn(&[u8], &[u8], &[u8]) -> u8>(
    rt: &(impl Files + Env + std::io::Input),
    on_input: F,
)
    requires { F.IsAlwaysCallable on_input }
{
    if is_asked(rt) {
        tell(outputs::close_output(rt, inputs(rt, &on_input, 2)));
    } else {
        outputs::close_output(rt, inputs(rt, &on_input, 1));
    }
}

// The program that checks.
pub fn run(rt: &(impl Files + Env + std::io::Input + Print)) {
    run_with(rt, |f, what, name| check_bytes(rt, f, what, name));
}
