// Lines for no end: a datagram's form; the window of 01 section 4, and its edge, 03 section 2.
use super::show;
use script::Line;
use script::numbers::{Window, behind, late};
use std::io::{Print, Result, Stdout};

// The numbers of a line, in their order, and what becomes of each.
fn numbers(to: Stdout, line: Line<'_>) -> Result<()> {
    let mut window = Window::new();
    for word in line.words().skip(1) {
        show::verdict(to, window.offer(script::decimal(word)))?;
    }
    Ok(())
}

// How far behind the first datagram comes, and the verdict on it.
fn edge(to: Stdout, line: Line<'_>) -> Result<()> {
    let behind = behind(line);
    if behind == 0 {
        return Ok(());
    }
    print!(to; " {behind} behind")?;
    show::verdict(to, late(behind))
}

pub fn line(to: Stdout, line: Line<'_>) -> Result<()> {
    match line.first() {
        b"form" => show::verdict(to, script::datagram::form(line)),
        b"numbers" => numbers(to, line),
        b"edge" => edge(to, line),
        _ => to.write_all(b" what?"),
    }
}
