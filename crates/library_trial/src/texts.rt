//! Texts, lists, and values as they travel in links: that memory serves for long ones, and that copies keep the order.
use std::alloc::{AllocError, Global};
use table_rows::{Bytes, Text, Texts, Wire, Wires, copy_wires};

/// A character and a text put behind a text.
fn write(text: &mut Text) -> Result<(), AllocError> {
    text.push('é')?;
    text.push_str("&b")
}

/// Whether a list keeps a copy of this text as its second one.
fn is_kept(alloc: Global, text: &Text, texts: &mut Texts) -> Result<bool, AllocError> {
    texts.push(Text::new(alloc))?;
    texts.push(text.copy(alloc)?)?;
    Ok(texts.len() == 2 && texts.at(1).as_str() == "aé&b" && texts.at(1).len() == 5)
}

/// A text of characters and a text behind it, kept in a list.
pub fn texts_keep_their_bytes(alloc: Global) -> Result<bool, AllocError> {
    let mut text = Text::of(alloc, "a")?;
    write(&mut text)?;
    is_kept(alloc, &text, &mut Texts::new(alloc))
}

/// A million characters and as many bytes.
fn write_long(text: &mut Text, bytes: &mut Bytes) -> Result<(), AllocError> {
    for _ in 0..1_000_000 {
        text.push('ä')?;
        bytes.push(7)?;
    }
    Ok(())
}

/// A copy of a text behind it, and whether that was the same.
fn double(alloc: Global, text: &mut Text) -> Result<bool, AllocError> {
    let copy = text.copy(alloc)?;
    let is_same = copy.as_str() == text.as_str();
    text.push_str(copy.as_str())?;
    Ok(is_same)
}

/// A text and a list of bytes of a million pieces each, and a copy of the text behind itself.
fn long_texts(alloc: Global) -> Result<bool, AllocError> {
    let mut text = Text::new(alloc);
    let mut bytes = Bytes::new(alloc);
    write_long(&mut text, &mut bytes)?;
    let are_long = text.len() == 2_000_000 && bytes.len() == 1_000_000;
    Ok(double(alloc, &mut text)? && are_long && text.len() == 4_000_000)
}

/// A hundred thousand texts and values.
fn fill(alloc: Global, texts: &mut Texts, wires: &mut Wires) -> Result<(), AllocError> {
    for _ in 0..100_000 {
        texts.push(Text::of(alloc, "text")?)?;
        wires.push(Wire::Words(Text::of(alloc, "text")?))?;
    }
    Ok(())
}

/// Whether there are a hundred thousand texts and values, as they were put in.
fn are_filled(texts: &Texts, wires: &Wires) -> bool {
    texts.len() == 100_000
        && texts.at(99_999).as_str() == "text"
        && wires.len() == 100_000
        && matches!(wires.at(99_999), Wire::Words(_))
}

/// Lists of a hundred thousand texts and values, and a copy of one.
fn long_lists(alloc: Global) -> Result<bool, AllocError> {
    let mut texts = Texts::new(alloc);
    let mut wires = Wires::new(alloc);
    fill(alloc, &mut texts, &mut wires)?;
    Ok(are_filled(&texts, &copy_wires(alloc, &wires)?))
}

/// Long texts and long lists.
pub fn long_texts_and_lists(alloc: Global) -> Result<bool, AllocError> {
    Ok(long_texts(alloc)? && long_lists(alloc)?)
}

/// A copy of two values.
pub fn a_copy_keeps_the_order(alloc: Global) -> Result<bool, AllocError> {
    let mut wires = Wires::new(alloc);
    wires.push(Wire::Int(-7))?;
    let held = Box::new(alloc, Wire::Words(Text::of(alloc, "é")?))?;
    wires.push(Wire::Tagged(Text::of(alloc, "Some")?, Some(held)))?;
    let copied = copy_wires(alloc, &wires)?;
    Ok(
        copied.len() == 2
            && matches!(copied.at(0), Wire::Int(-7))
            && matches!(copied.at(1), Wire::Tagged(_, Some(_))),
    )
}
