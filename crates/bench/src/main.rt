// The bench program: one bundle on standard input, the reply to it in lines on standard output.
//
// What it prints, and in which words, is settled and proved in crate `bundle`. Here the words are
// written out; that they reach standard output is not proved.
#![tactic(auto)]

ghost use Rattle.std.specs.Prelude.{Ok};
ghost use Rattle.bundle.specs.Printed.{Readable};

use bundle::{AREA, Judgement};
use parts::BUNDLE_MAX;
use std::io;
use std::io::{BufWriter, Read, Write};

// One byte more than a bundle may have tells one that is too long.
fn main(rt: HostRuntime) -> io::Result<()> {
    let mut bundle = Vec::new(rt.alloc());
    rt.reader()
        .take(BUNDLE_MAX as u64 + 1)
        .read_to_end(&mut bundle)?;
    let mut out = BufWriter::new(rt.alloc(), io::writer(&rt))?;
    answer(&bundle, &mut out)?;
    out.flush()
}

fn answer<W: Write>(bundle: &[u8], out: &mut W) -> io::Result<()> {
    let mut cells = [0u8; AREA];
    let mut list = [0u32; AREA];
    match bundle::reply_to(bundle, &mut cells, &mut list) {
        Ok(judgement) => say_judged(judgement, &cells, &list, out),
        Err(unjudged) => writeln!(out, "{unjudged}"),
    }
}

// Writes the judgement, and then each settled pair.
fn say_judged<'a, W: Write>(
    judgement: Judgement,
    cells: &'a [u8],
    list: &'a [u32],
    out: &mut W,
) -> io::Result<()>
    requires { Readable (Ok judgement) cells.now list.now }
{
    writeln!(out, "{judgement}")?;
    for i in 0..judgement.pairs {
        let line = bundle::line_at(cells, list, judgement.schemas, i);
        writeln!(out, "{line}")?;
    }
    Ok(())
}
