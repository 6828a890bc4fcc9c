// The script, line by line, for two ends, near and far.
use super::ends::{End, Output};
use super::{alone, ends};
use script::Line;
use std::io::{Print, Result, Stdout};

// What a line answers, after its echo.
fn answer(
    to: Stdout,
    line: Line<'_>,
    near: &mut End,
    far: &mut End,
    output: &mut Output,
) -> Result<()> {
    to.write_all(b" ->")?;
    match line.first() {
        b"near" => ends::line(to, line, near, output),
        b"far" => ends::line(to, line, far, output),
        _ => alone::line(to, line),
    }
}

pub fn play(to: Stdout, text: &[u8]) -> Result<()> {
    let mut near = End::new();
    let mut far = End::new();
    let mut output = Output::new();
    for bytes in script::lines(text) {
        let line = Line { bytes };
        to.write_all(line.bare())?;
        if !line.is_comment() {
            answer(to, line, &mut near, &mut far, &mut output)?;
        }
        to.write_all(b"\n")?;
    }
    Ok(())
}
