// The bytes in hexadecimal, 16 to a line.
use codec_append::append_bytes;
use std::io;
use tool_text::{append_padded, append_spaced_hex};

// The last five digits of the offset, and at most 16 bytes.
fn show_row(rt: &impl Print, offset: usize, row: &[u8]) -> io::Result<()> {
    let mut out = [0u8; 64];
    let offset_end = append_padded::<5>(&mut out, 0, offset as u64);
    let bytes_end = append_spaced_hex(&mut out, offset_end, row);
    let e = append_bytes(&mut out, bytes_end, b"\n");
    rt.write_all(&out[..e])
}

pub fn show_bytes(rt: &impl Print, s: &[u8]) -> io::Result<()> {
    println!(rt; "\nthe bytes: offset in decimal, then up to 16 bytes in hexadecimal")?;
    for (i, row) in s.chunks(16).enumerate() {
        show_row(rt, i * 16, row)?;
    }
    Ok(())
}
