// The command `file`: what a shelf sees in an object file.
use crate::command;
use anyhow::Context;
use byte_parts::span::Span;
use image_shelf::images::ImageShelf;
use image_shelf::rows::ImageRow;
use shelf::files::Shelf;
use shelf::object::{Debuglink, ObjectKind, Section, Symbol};
use std::alloc::{AllocError, Global};
use std::io::{BufWriter, Read, Write};
use std::process::ExitCode;
use std::{fs, io};

/// `file`: kind, sections, symbols, debuglink and build id of an object file.
pub fn file(rt: &HostRuntime, words: &[String]) -> anyhow::Result<ExitCode> {
    let [path] = words else {
        return command::misused(rt, "file");
    };
    let path = path.as_str();
    let Ok(bytes) = path_and_file(rt, path) else {
        eprintln!(rt; "uprobes: cannot read {path}")?;
        return Ok(ExitCode::FAILURE);
    };
    let len = path.len().min(bytes.len());
    let mut rows = [ImageRow::new(
        Span { place: 0, len },
        Span {
            place: len,
            len: bytes.len() - len,
        },
    )];
    let shelf = ImageShelf::new(bytes.as_slice(), &mut rows);
    let mut out = BufWriter::new(rt.alloc(), rt.stdout())?;
    describe(rt.alloc(), &mut out, &shelf, path.as_bytes())?;
    out.flush()?;
    Ok(ExitCode::SUCCESS)
}

// A path and, after it, the file that it names.
fn path_and_file(rt: &HostRuntime, path: &str) -> io::Result<Vec<u8>> {
    let mut bytes = Vec::new(rt.alloc());
    bytes.extend_from_slice(path.as_bytes())?;
    let mut file = fs::open(rt, path)?;
    file.read_to_end(&mut bytes)?;
    Ok(bytes)
}

// All that a shelf says of the file with this path.
fn describe<S: Shelf, W: Write>(
    heap: Global,
    out: &mut W,
    shelf: &S,
    path: &[u8],
) -> anyhow::Result<()> {
    let file = shelf.open(path).context("the file is not on the shelf")?;
    let Some(kind) = shelf.kind(file) else {
        out.write_all(b"no object\n")?;
        return Ok(());
    };
    show_kind(out, kind)?;
    // Sections, symbols and bytes by their numbers, as a shelf is asked.
    let sections = shelf.section_count(file).unwrap_or(0);
    for place in 0..sections {
        if let Some(section) = shelf.section_at(file, place) {
            show_section(out, section)?;
        }
    }
    show_symbols(heap, out, shelf, file)?;
    show_debuglink(out, shelf, file)?;
    show_build_id(out, shelf, file)?;
    Ok(())
}

fn show_kind<W: Write>(out: &mut W, kind: ObjectKind) -> io::Result<()> {
    let word = match kind {
        ObjectKind::Executable => "executable",
        ObjectKind::Dynamic => "dynamic",
        ObjectKind::Other => "other",
    };
    writeln!(out, "kind {word}")
}

fn show_section<W: Write>(out: &mut W, section: Section) -> io::Result<()> {
    let number = section.number;
    let address = section.address.0;
    match section.offset {
        Some(offset) => {
            let offset = offset.0;
            writeln!(out, "section {number} {address:#x} {offset:#x}")
        }
        None => writeln!(out, "section {number} {address:#x} none"),
    }
}

// The symbols in the order of a scan.
fn show_symbols<S: Shelf, W: Write>(
    heap: Global,
    out: &mut W,
    shelf: &S,
    file: usize,
) -> anyhow::Result<()> {
    // A buffer, since a shelf writes names into its caller's memory.
    let mut buffer = vec![in heap; 0u8; 256]?;
    let symbols = shelf.symbol_count(file).unwrap_or(0);
    for place in 0..symbols {
        let Some(symbol) = shelf.symbol(file, place) else {
            continue;
        };
        show_symbol(out, place, symbol)?;
        if let Some(name) = read_name(heap, &mut buffer, shelf, file, place)? {
            out.write_all(b" ")?;
            out.write_all(name)?;
        }
        out.write_all(b"\n")?;
    }
    Ok(())
}

// A symbol, but for its name.
fn show_symbol<W: Write>(out: &mut W, place: usize, symbol: Symbol) -> io::Result<()> {
    let address = symbol.address.0;
    match symbol.section {
        Some(section) => write!(out, "symbol {place} {address:#x} {section}"),
        None => write!(out, "symbol {place} {address:#x} none"),
    }
}

// The name of a symbol. It stands in the front of the buffer, which grows where the name is longer.
fn read_name<'b, S: Shelf>(
    heap: Global,
    buffer: &'b mut Vec<u8>,
    shelf: &S,
    file: usize,
    place: usize,
) -> Result<Option<&'b [u8]>, AllocError> {
    let mut len = shelf.copy_name(file, place, buffer.as_mut_slice());
    if let Some(long) = len {
        if long > buffer.len() {
            *buffer = vec![in heap; 0u8; long]?;
            len = shelf.copy_name(file, place, buffer.as_mut_slice());
        }
    }
    let bytes = buffer.as_slice();
    Ok(len.map(|len| bytes.get(..len).unwrap_or(b"")))
}

fn show_debuglink<S: Shelf, W: Write>(out: &mut W, shelf: &S, file: usize) -> io::Result<()> {
    match shelf.debuglink(file) {
        Some(Debuglink::Named(len)) => {
            out.write_all(b"debuglink named ")?;
            for at in 0..len {
                if let Some(byte) = shelf.debuglink_byte(file, at) {
                    out.write_all(&[byte])?;
                }
            }
            out.write_all(b"\n")
        }
        Some(Debuglink::Malformed) => out.write_all(b"debuglink malformed\n"),
        Some(Debuglink::Absent) | None => out.write_all(b"debuglink absent\n"),
    }
}

fn show_build_id<S: Shelf, W: Write>(out: &mut W, shelf: &S, file: usize) -> io::Result<()> {
    let Some(len) = shelf.build_id_len(file) else {
        return out.write_all(b"build-id absent\n");
    };
    out.write_all(b"build-id ")?;
    for at in 0..len {
        if let Some(byte) = shelf.build_id_byte(file, at) {
            write!(out, "{byte:02x}")?;
        }
    }
    out.write_all(b"\n")
}
