// Why bytes are no archive: the reader's place, what is expected there, and what stands there.
use codec_cursor::read_number;
use std::{fmt, io};
use tool_archive_items::order::{item_at, size};
use tool_archive_items::{Form, Item, Position};
use tool_item_words::{Place, Shape, rule};

// What stands where an item is wanted: the bytes from there on, behind which there may be more than were read.
#[derive(Clone, Copy)]
struct Found<'a> {
    position: Position,
    rest: &'a [u8],
    more: bool,
}

impl fmt::Display for Found<'_> {
    fn fmt<W: fmt::Write>(&self, f: &mut fmt::Formatter<W>) -> fmt::Result {
        let left = self.rest.len();
        let n = size(self.position);
        if self.position.item == Item::End {
            write_left_over(f, left, self.more)
        } else if left >= n {
            write_value(f, self.position, self.rest)
        } else if left == 0 {
            f.write_str("the end of the file")
        } else {
            write!(f, "{left} of {n} bytes, then the end of the file")
        }
    }
}

// Bytes behind the last section.
fn write_left_over<W: fmt::Write>(
    f: &mut fmt::Formatter<W>,
    left: usize,
    more: bool,
) -> fmt::Result {
    if more {
        write!(
            f,
            "{left} bytes left over, or more: no archive is as long as this file"
        )
    } else {
        write!(f, "bytes left over: {left}")
    }
}

// An item that is whole.
fn write_value<W: fmt::Write>(f: &mut fmt::Formatter<W>, p: Position, item: &[u8]) -> fmt::Result {
    if p.item.form() == Form::Number {
        let n = read_number(item, &mut 0);
        write!(f, "{n}")
    } else if let Some(n) = item.first() {
        write!(f, "{n}")
    } else {
        Ok(())
    }
}

pub fn show_refusal(rt: &impl Print, s: &[u8], place: usize, more: bool) -> io::Result<()> {
    match item_at(s, place) {
        Some(position) => {
            let rule = rule(position);
            let within = Place(position);
            let shape = Shape(position);
            let rest = s.get(place..).unwrap_or(&[]);
            let found = Found {
                position,
                rest,
                more,
            };
            println!(rt;
                "not an archive: refused 13 at byte {place}: {rule}\n  where: {within}\n  item: {shape}\n  found: {found}"
            )
        }
        None => println!(rt;
            "not an archive: refused 13 at byte {place}: the item there has no name"
        ),
    }
}
