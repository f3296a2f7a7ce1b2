use std::alloc::{AllocError, Global};

/// A text, then a piece so many times, then another text.
pub fn built(
    alloc: Global,
    front: &str,
    piece: &str,
    count: usize,
    back: &str,
) -> Result<String, AllocError> {
    let mut line = String::from_str(alloc, front)?;
    for _ in 0..count {
        line.push_str(piece)?;
    }
    line.push_str(back)?;
    Ok(line)
}

/// Two texts, and between them the numbers from 0 on, so many, with commas.
pub fn with_numbers(
    alloc: Global,
    front: &str,
    count: usize,
    back: &str,
) -> Result<String, AllocError> {
    let mut line = String::from_str(alloc, front)?;
    line.push_str("0")?;
    for number in 1..count {
        let item = format!(in alloc; ",{number}")?;
        line.push_str(item.as_str())?;
    }
    line.push_str(back)?;
    Ok(line)
}
