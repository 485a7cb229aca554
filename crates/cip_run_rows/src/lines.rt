//! The lines of a text, of which some stand many times.
use std::alloc::AllocError;

/// A line that begins with `each`: how often it stands, and what stands in front of its first `#` and behind it.
fn repeated(line: &str) -> Option<(u32, &str, &str)> {
    let (times, line) = line.strip_prefix("each ")?.split_once(' ')?;
    let (front, back) = line.split_once('#')?;
    Some((times.parse().ok()?, front, back))
}

/// Puts a line at the end of a text.
fn put_line(line: &str, text: &mut String) -> Result<(), AllocError> {
    let Some((times, front, back)) = repeated(line) else {
        return writeln!(text, "{line}");
    };
    for number in 0..times {
        writeln!(text, "{front}{number:05}{back}")?;
    }
    Ok(())
}

/// Puts lines at the end of a text, each with its line feed.
pub fn put_lines(lines: &str, text: &mut String) -> Result<(), AllocError> {
    for line in lines.split('\n') {
        put_line(line, text)?;
    }
    Ok(())
}
