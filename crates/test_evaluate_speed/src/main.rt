// Evaluates the question of a few sheets that are hard on an evaluator, each once, on up to 128 facts, and prints a line for each: its name,
// then the number, the line and the count. Each call is lent the words of 1,000 answers.
#![tactic(auto)]

ghost use Rattle.std.specs.Prelude.{◌<◌};

use sheet_format::Refusal;
use std::io;

// The words of a fact, and how many facts there are.
const FACT: usize = 5;

const FACTS: usize = 128;

fn main(rt: HostRuntime) -> io::Result<()> {
    six_apart(&rt)?;
    six_apart_last(&rt)?;
    six_apart_none(&rt)?;
    pairs_apart(&rt)?;
    odd_cycle(&rt)?;
    chain(&rt)?;
    product(&rt)
}

// Six atoms that share no variable, and the head over the first.
fn six_apart(rt: &impl Print) -> io::Result<()> {
    let sheet = b"       1      -1
       4       2      -1
       4       2      -2
       4       2      -3
       4       2      -4
       4       2      -5
       4       2      -6
       2       0
       4       2      -1
";
    let mut facts = [[0i32; FACT]; FACTS];
    straps(&mut facts);
    show(rt, "six apart", sheet, facts.as_flattened())
}

// The same with the head over the last.
fn six_apart_last(rt: &impl Print) -> io::Result<()> {
    let sheet = b"       1      -6
       4       2      -1
       4       2      -2
       4       2      -3
       4       2      -4
       4       2      -5
       4       2      -6
       2       0
       4       2      -1
";
    let mut facts = [[0i32; FACT]; FACTS];
    straps(&mut facts);
    show(
        rt,
        "six apart, head over the last",
        sheet,
        facts.as_flattened(),
    )
}

// The same with no fact for the last.
fn six_apart_none(rt: &impl Print) -> io::Result<()> {
    let sheet = b"       1      -1
       4       2      -1
       4       2      -2
       4       2      -3
       4       2      -4
       4       2      -5
       4      10      -6
       2       0
       4       2      -1
";
    let mut facts = [[0i32; FACT]; FACTS];
    straps(&mut facts);
    show(
        rt,
        "six apart, no fact for the last",
        sheet,
        facts.as_flattened(),
    )
}

// Three pairs of joined atoms. The first two are over a complete relation of 11 by 11, the last pair never meets.
fn pairs_apart(rt: &impl Print) -> io::Result<()> {
    let sheet = b"       1      -1
       4       4      -1      -2
       4       4      -2      -3
       4       4      -4      -5
       4       4      -5      -6
       4       5      -7      -8
       4       6      -8      -9
       2       0
       4       2      -1
";
    let mut facts = [[0i32; FACT]; FACTS];
    three_pairs(&mut facts);
    show(
        rt,
        "three pairs, the last never meets",
        sheet,
        facts.as_flattened(),
    )
}

// A cycle of five over the pairs of 8 and 8, both ways: each closed walk there is even.
fn odd_cycle(rt: &impl Print) -> io::Result<()> {
    let sheet = b"       1
       4       4      -1      -2
       4       4      -2      -3
       4       4      -3      -4
       4       4      -4      -5
       4       4      -5      -1
       2
       4       2      -1
";
    let mut facts = [[0i32; FACT]; FACTS];
    both_ways(&mut facts);
    show(rt, "a cycle of five", sheet, facts.as_flattened())
}

// A chain of six over the same.
fn chain(rt: &impl Print) -> io::Result<()> {
    let sheet = b"       1      -1      -7
       4       4      -1      -2
       4       4      -2      -3
       4       4      -3      -4
       4       4      -4      -5
       4       4      -5      -6
       4       4      -6      -7
       2       0       0
       4       2      -1
";
    let mut facts = [[0i32; FACT]; FACTS];
    both_ways(&mut facts);
    show(rt, "a chain of six", sheet, facts.as_flattened())
}

// Four columns of 128 values each.
fn product(rt: &impl Print) -> io::Result<()> {
    let sheet = b"       1      -1      -2      -3      -4
       4       2      -1
       4       2      -2
       4       2      -3
       4       2      -4
       2       0       0       0       0
       4       2      -1
";
    let mut facts = [[0i32; FACT]; FACTS];
    straps(&mut facts);
    show(rt, "a product of four columns", sheet, facts.as_flattened())
}

// Strap(0) to Strap(127).
fn straps(facts: &mut [[i32; FACT]; FACTS]) {
    grid(facts, 2, 0, 0, 1);
}

// Sig of 0 to 7 with 8 to 15, and back.
fn both_ways(facts: &mut [[i32; FACT]; FACTS]) {
    grid(&mut facts[..64], 4, 0, 8, 8);
    grid(&mut facts[64..], 4, 8, 0, 8);
}

// All of 0 to 10 with 0 to 10, 0 to 2 with 20, and 0 to 3 with 0.
fn three_pairs(facts: &mut [[i32; FACT]; FACTS]) {
    grid(&mut facts[..121], 4, 0, 0, 11);
    grid(&mut facts[121..124], 5, 0, 20, 1);
    grid(&mut facts[124..], 6, 0, 0, 1);
}

// Puts facts of the relation, by rows of a width: the first value goes up from a by rows, the second from b in a row.
fn grid(facts: &mut [[i32; FACT]], relation: i32, a: usize, b: usize, width: usize)
    requires { 0 < width }
{
    for (n, fact) in facts.iter_mut().enumerate() {
        *fact = [relation, value(a, n / width), value(b, n % width), 0, 0];
    }
}

// So much above the first, as a word.
fn value(first: usize, n: usize) -> i32 {
    i32::try_from(first.saturating_add(n)).unwrap_or(0)
}

// Calls, and prints how it ended.
fn show(rt: &impl Print, name: &str, sheet: &[u8], facts: &[i32]) -> io::Result<()> {
    let mut lent = [0i32; 4000];
    let ending = evaluate::evaluate(sheet, 1, facts, &mut lent);
    print!(rt; "{name}: ")?;
    print(rt, ending)
}

fn print(rt: &impl Print, e: Result<usize, Refusal>) -> io::Result<()> {
    match e {
        Ok(count) => numbers(rt, 0, 0, count),
        Err(Refusal { cause, line }) => numbers(rt, cause.number(), line, 0),
    }
}

fn numbers(rt: &impl Print, number: usize, line: usize, count: usize) -> io::Result<()> {
    println!(rt; "{number} {line} {count}")
}
