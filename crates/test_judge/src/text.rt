// Runs a text or a sheet: what is said of it in words, and its sheet and back.
//
//     text NAME|GIVEN     GIVEN is a text or a sheet; "/" stands for byte 10
//
// What is printed: the name, a bar, and what is said of GIVEN in words. Of a text that has a sheet also the text of that sheet, and then "="
// where the sheet of that text is the same sheet, and "!" where it is not.
use crate::CASE;
use sheet_format::MOST_BYTES;
use test_results::Line;
use text_writer::TEXT_ROOM;

// Runs with the bytes that the text stands for.
pub(crate) fn run(text: &[u8], out: &mut Line<'_>) {
    let mut held = [0u8; CASE];
    for (place, b) in held.iter_mut().zip(text) {
        *place = if *b == b'/' { b'\n' } else { *b };
    }
    let given = &held[..text.len().min(CASE)];
    out.byte(b'|');
    put_answer(given, out);
    put_back(given, out);
}

// What is said in words.
fn put_answer(given: &[u8], out: &mut Line<'_>) {
    let mut words = [0u8; TEXT_ROOM];
    let n = text_answer::answer(given, &mut words);
    out.bytes(&words[..n.min(TEXT_ROOM)]);
}

// Of a text that has a sheet the text of that sheet, and whether that has the same sheet.
fn put_back(given: &[u8], out: &mut Line<'_>) {
    let mut held = [0u8; MOST_BYTES];
    let Some(sheet) = sheet_of(given, &mut held) else {
        return;
    };
    let mut back = [0u8; TEXT_ROOM];
    let Ok(n) = text_from_sheet::text_of(sheet, &mut back) else {
        return;
    };
    let back = &back[..n.min(TEXT_ROOM)];
    out.bytes(back);
    out.mark(sheet_of(back, &mut [0u8; MOST_BYTES]) == Some(sheet));
    out.byte(b'\n');
}

// The sheet of a text, where it has one.
fn sheet_of<'a>(text: &[u8], room: &'a mut [u8; MOST_BYTES]) -> Option<&'a [u8]> {
    let n = text_to_sheet::sheet_of(text, room).ok()?;
    Some(&room[..n.min(MOST_BYTES)])
}
