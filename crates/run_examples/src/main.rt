// The examples of document 01 without a P, one for each of its errors that look right, and some of why a column has its
// colour and of reads and stores (document 02), by the exported routines. Each line says what a draw returned and its pixels
// 0 and 1, or a reason's fields, or what a store returned and left, or what was read; the file stdout has what the documents
// expect. The backdrop is green, 0x00f800. The bytes of the output and of what is stored to start as 0xaa, so a refused draw
// shows 0xaaaaaaaa.

#![tactic(auto)]

use ashlarkin::{
    ashlarkin_draw, ashlarkin_explain, ashlarkin_read8, ashlarkin_reset, ashlarkin_step,
    ashlarkin_store8, ashlarkin_store16,
};
use explain::Reason;
use gpu_bus::Byte;
use std::{fmt, io};

const VIDEO_RAM_SIZE: usize = 0x20000;

const PALETTE_RAM_SIZE: usize = 0x400;

const OAM_SIZE: usize = 0x400;

const REGISTERS_SIZE: usize = 0x56;

const ROW_SIZE: usize = 960;

// The lowest reference number that is too large, 2^28.
const LIMIT: i32 = 0x1000_0000;

#[derive(Clone, Copy)]
enum Reading {
    R,
    H,
}

// What a draw returned, and its pixels 0 and 1.
#[derive(Clone, Copy)]
struct Drawn {
    number: u32,
    first: u32,
    second: u32,
}

impl fmt::Display for Drawn {
    fn fmt<W: fmt::Write>(&self, f: &mut fmt::Formatter<W>) -> fmt::Result {
        write!(
            f,
            "returns {}, pixels 0x{:06x} 0x{:06x}",
            self.number, self.first, self.second
        )
    }
}

// What a step returned.
#[derive(Clone, Copy)]
struct Stepped(u32);

impl fmt::Display for Stepped {
    fn fmt<W: fmt::Write>(&self, f: &mut fmt::Formatter<W>) -> fmt::Result {
        write!(f, "returns {}", self.0)
    }
}

// A reason, as it is printed.
#[derive(Clone, Copy)]
struct Why(Reason);

impl fmt::Display for Why {
    fn fmt<W: fmt::Write>(&self, f: &mut fmt::Formatter<W>) -> fmt::Result {
        let why = self.0;
        write!(f, "returns {}, blank {}", why.number, why.blank)?;
        write!(f, ", region {}", why.region)?;
        write!(f, ", layers {} {}", why.top, why.bottom)?;
        write!(f, ", effect {}", why.effect)?;
        write!(
            f,
            ", colours 0x{:04x} 0x{:04x}",
            why.top_color, why.bottom_color
        )?;
        write!(f, ", weights {} {}", why.first_weight, why.second_weight)?;
        write!(f, ", pixel 0x{:06x}", why.pixel)
    }
}

// What a store returned, and the bytes that were read at two addresses afterwards.
#[derive(Clone, Copy)]
struct Stored {
    number: u32,
    at: u32,
    first: u32,
    second: u32,
}

impl fmt::Display for Stored {
    fn fmt<W: fmt::Write>(&self, f: &mut fmt::Formatter<W>) -> fmt::Result {
        write!(f, "returns {}, bytes from 0x{:08x}", self.number, self.at)?;
        write!(f, " 0x{:02x} 0x{:02x}", self.first, self.second)
    }
}

// A byte that was read, as it is printed.
#[derive(Clone, Copy)]
struct Got(Byte);

impl fmt::Display for Got {
    fn fmt<W: fmt::Write>(&self, f: &mut fmt::Formatter<W>) -> fmt::Result {
        write!(f, "returns {}, byte 0x{:02x}", self.0.number, self.0.value)
    }
}

// A line of the output.
fn print(rt: &impl Print, name: &str, answer: &impl fmt::Display) -> io::Result<()> {
    println!(rt; "{name}: {answer}")
}

// Green as backdrop; the sprites' colours 1 and 2 are red and blue.
fn colours() -> [u8; PALETTE_RAM_SIZE] {
    let mut palette = [0; PALETTE_RAM_SIZE];
    palette[0x000] = 0xe0;
    palette[0x001] = 0x03;
    palette[0x202] = 0x1f;
    palette[0x205] = 0x7c;
    palette
}

// The low byte of DISPCNT, and the effect black on the backdrop.
fn backdrop_registers(low: u8, bldy: u8) -> [u8; REGISTERS_SIZE] {
    let mut registers = [0; REGISTERS_SIZE];
    registers[0x00] = low;
    registers[0x50] = 0xe0;
    registers[0x54] = bldy;
    registers
}

// Mode 3 with background 2 on and the unit matrix, and the high byte of DISPCNT.
fn bitmap_registers(high: u8) -> [u8; REGISTERS_SIZE] {
    let mut registers = [0; REGISTERS_SIZE];
    registers[0x00] = 3;
    registers[0x01] = high;
    registers[0x21] = 1;
    registers[0x27] = 1;
    registers
}

fn reset_row() -> [u8; ROW_SIZE] {
    let mut entries = [0; ROW_SIZE];
    ashlarkin_reset(&mut entries);
    entries
}

// A line as it is drawn with these colours; all references but x2 are 0.
#[derive(Drop)]
struct Scene {
    reading: Reading,
    line: u32,
    x2: i32,
    vram: [u8; VIDEO_RAM_SIZE],
    oam: [u8; OAM_SIZE],
    registers: [u8; REGISTERS_SIZE],
}

impl Scene {
    // Line 0 by reading R, with nothing there but the backdrop.
    fn empty() -> Scene {
        Scene {
            reading: Reading::R,
            line: 0,
            x2: 0,
            vram: [0; VIDEO_RAM_SIZE],
            oam: [0; OAM_SIZE],
            registers: [0; REGISTERS_SIZE],
        }
    }

    fn backdrop(low: u8, bldy: u8) -> Scene {
        Scene {
            registers: backdrop_registers(low, bldy),
            ..Scene::empty()
        }
    }

    // A bitmap alone, from x2 on.
    fn bitmap(x2: i32, vram: [u8; VIDEO_RAM_SIZE]) -> Scene {
        Scene {
            x2,
            vram,
            registers: bitmap_registers(0x04),
            ..Scene::empty()
        }
    }

    // A draw on the row.
    fn draw(&self, entries: &mut [u8]) -> Drawn {
        let mut output = [0xaa; ROW_SIZE];
        let number = ashlarkin_draw(
            self.reading as u32,
            self.line,
            self.x2,
            0,
            0,
            0,
            &self.vram,
            &colours(),
            &self.oam,
            &self.registers,
            entries,
            &mut output,
        );
        Drawn {
            number,
            first: rows::word_at(&output, 0),
            second: rows::word_at(&output, 1),
        }
    }

    // A draw on a reset row.
    fn draw_alone(&self) -> Drawn {
        self.draw(&mut reset_row())
    }

    // Why a column has its colour.
    fn explain(&self, column: u32) -> Why {
        Why(ashlarkin_explain(
            self.reading as u32,
            self.line,
            self.x2,
            0,
            0,
            0,
            &self.vram,
            &colours(),
            &self.oam,
            &self.registers,
            &reset_row(),
            column,
        ))
    }
}

fn lines(rt: &impl Print) -> io::Result<()> {
    for (name, line) in [("line 159", 159), ("line 160", 160)] {
        let scene = Scene {
            line,
            ..Scene::backdrop(0, 0)
        };
        print(rt, name, &scene.draw_alone())?;
    }
    Ok(())
}

fn modes(rt: &impl Print) -> io::Result<()> {
    for (name, low) in [("mode 7", 0x07), ("mode 7, forced blank", 0x87)] {
        print(rt, name, &Scene::backdrop(low, 0).draw_alone())?;
    }
    Ok(())
}

fn weights(rt: &impl Print) -> io::Result<()> {
    let weights = [
        ("BLDY 16, reading R", Reading::R, 16),
        ("BLDY 17, reading R", Reading::R, 17),
        ("BLDY 17, reading H", Reading::H, 17),
    ];
    for (name, reading, bldy) in weights {
        let scene = Scene {
            reading,
            ..Scene::backdrop(0, bldy)
        };
        print(rt, name, &scene.draw_alone())?;
    }
    Ok(())
}

// The step of 2^28 - 1 by pb2.
fn step(pb2: i16) -> Stepped {
    let mut references = [0; 16];
    references[..4].copy_from_slice(&(LIMIT - 1).to_le_bytes());
    Stepped(ashlarkin_step(pb2, 0, 0, 0, &mut references))
}

fn references(rt: &impl Print) -> io::Result<()> {
    for (name, x2) in [("reference 2^28 - 1", LIMIT - 1), ("reference 2^28", LIMIT)] {
        let scene = Scene {
            x2,
            ..Scene::backdrop(0, 0)
        };
        print(rt, name, &scene.draw_alone())?;
    }
    print(rt, "reference 2^28 - 1 stepped by 0", &step(0))?;
    print(rt, "reference 2^28 - 1 stepped by 1", &step(1))
}

// Tile 0 has a blue first dot, and tile 1 a red one. Sprite 0 shows tile 1 and the 127 others tile 0; all stand at column 0
// with priority 0. A tie that went to the later sprite would print 0x0000f8.
fn tie(rt: &impl Print) -> io::Result<()> {
    let mut scene = Scene::empty();
    scene.vram[0x10000] = 0x02;
    scene.vram[0x10020] = 0x01;
    scene.oam[4] = 1;
    scene.registers[0x01] = 0x10;
    print(rt, "tie of sprites", &scene.draw_alone())
}

// The words 0x8000 and 0x8001 in mode 3. If bit 15 were masked before the test, the first would print 0x000000.
fn transparent_word(rt: &impl Print) -> io::Result<()> {
    let mut vram = [0; VIDEO_RAM_SIZE];
    vram[..4].copy_from_slice(&[0x00, 0x80, 0x01, 0x80]);
    let scene = Scene::bitmap(0, vram);
    print(rt, "words 0x8000 and 0x8001", &scene.draw_alone())
}

// The bitmap's first two words are red, and the first dot of tile 512 is set. Sprite 0 is a window sprite at column 0 that
// shows that tile. The object window permits background 2, and outside permits nothing. The high byte of DISPCNT is given.
fn window(high: u8) -> Scene {
    let mut scene = Scene::empty();
    scene.vram[0x00000] = 0x1f;
    scene.vram[0x00002] = 0x1f;
    scene.vram[0x14000] = 0x01;
    scene.oam[1] = 0x08;
    scene.oam[5] = 0x02;
    scene.registers = bitmap_registers(high);
    scene.registers[0x4b] = 0x04;
    scene
}

// The window sprite marks column 0. The second draw has sprites off: without the first one's mark it would print 0x00f800
// twice.
fn window_marks(rt: &impl Print) -> io::Result<()> {
    let mut entries = reset_row();
    let on = window(0x94).draw(&mut entries);
    print(rt, "window marks, sprites on", &on)?;
    let off = window(0x84).draw(&mut entries);
    print(rt, "window marks, sprites off", &off)
}

// Column 0 lies at -1/256, left of the bitmap, and column 1 at 255/256, in its first dot, which is red. Rounded toward
// zero both would lie in that dot.
fn negative_point(rt: &impl Print) -> io::Result<()> {
    let mut vram = [0; VIDEO_RAM_SIZE];
    vram[0] = 0x1f;
    print(rt, "point -1/256", &Scene::bitmap(-1, vram).draw_alone())
}

// Black by 0 is still black, though it changes nothing. Forced blank names no layer, and has no column 240 either.
fn reasons(rt: &impl Print) -> io::Result<()> {
    print(rt, "why, empty screen", &Scene::empty().explain(0))?;
    print(rt, "why, black by 0", &Scene::backdrop(0, 0).explain(0))?;
    let blank = Scene::backdrop(0x87, 0);
    print(rt, "why, forced blank", &blank.explain(239))?;
    print(rt, "why, column 240", &blank.explain(240))
}

// What is stored to and read.
#[derive(Drop)]
struct Bus {
    vram: [u8; VIDEO_RAM_SIZE],
    palette: [u8; PALETTE_RAM_SIZE],
    oam: [u8; OAM_SIZE],
}

impl Bus {
    fn new() -> Bus {
        Bus {
            vram: [0xaa; VIDEO_RAM_SIZE],
            palette: [0xaa; PALETTE_RAM_SIZE],
            oam: [0xaa; OAM_SIZE],
        }
    }

    fn read(&self, address: u32) -> u32 {
        ashlarkin_read8(address, &self.vram, &self.palette, &self.oam).value
    }

    // What a store returned, and the bytes from an address on.
    fn stored(&self, number: u32, at: u32) -> Stored {
        Stored {
            number,
            at,
            first: self.read(at),
            second: self.read(at.wrapping_add(1)),
        }
    }
}

// The byte 0x12 stored in a mode, and the bytes from an address on.
fn store_byte(address: u32, mode: u8, at: u32) -> Stored {
    let mut bus = Bus::new();
    let number = ashlarkin_store8(
        address,
        0x12,
        &backdrop_registers(mode, 0),
        &mut bus.vram,
        &mut bus.palette,
        &mut bus.oam,
    );
    bus.stored(number, at)
}

// The halfword 0x3412 stored, and the bytes from an address on.
fn store_halfword(address: u32, at: u32) -> Stored {
    let mut bus = Bus::new();
    let number = ashlarkin_store16(
        address,
        0x3412,
        &mut bus.vram,
        &mut bus.palette,
        &mut bus.oam,
    );
    bus.stored(number, at)
}

// 0x06018000 is 0x06010000 again. There sprite tiles start in mode 0, and take no byte; in mode 3 they start 0x4000 later.
fn bytes(rt: &impl Print) -> io::Result<()> {
    let stores = [
        ("byte to 0x06018000, mode 3", 0x0601_8000, 3, 0x0601_0000),
        ("byte to 0x06018000, mode 0", 0x0601_8000, 0, 0x0601_0000),
        ("byte to 0x05000401", 0x0500_0401, 0, 0x0500_0000),
        ("byte to 0x07000400", 0x0700_0400, 0, 0x0700_0000),
        ("byte to 0x15000000", 0x1500_0000, 0, 0x0500_0000),
    ];
    for (name, address, mode, at) in stores {
        print(rt, name, &store_byte(address, mode, at))?;
    }
    Ok(())
}

// Odd addresses are refused in video memory alone.
fn halfwords(rt: &impl Print) -> io::Result<()> {
    let stores = [
        ("halfword to 0x06018000", 0x0601_8000, 0x0601_0000),
        ("halfword to 0x06000001", 0x0600_0001, 0x0600_0000),
        ("halfword to 0x05000001", 0x0500_0001, 0x0500_0000),
        ("halfword to 0x07000400", 0x0700_0400, 0x0700_0000),
    ];
    for (name, address, at) in stores {
        print(rt, name, &store_halfword(address, at))?;
    }
    Ok(())
}

fn read_byte(address: u32, palette: &[u8]) -> Got {
    let vram = [0; VIDEO_RAM_SIZE];
    let oam = [0; OAM_SIZE];
    Got(ashlarkin_read8(address, &vram, palette, &oam))
}

// The palette's first byte is 0xe0. Lengths are judged before the page.
fn reads(rt: &impl Print) -> io::Result<()> {
    let palette = colours();
    let short = [0; PALETTE_RAM_SIZE - 1];
    let reads = [
        ("read of 0x05000400", 0x0500_0400, &palette[..]),
        ("read of 0x15000000", 0x1500_0000, &palette[..]),
        ("read of 0x15000000, palette short", 0x1500_0000, &short[..]),
    ];
    for (name, address, palette) in reads {
        print(rt, name, &read_byte(address, palette))?;
    }
    Ok(())
}

fn main(rt: HostRuntime) -> io::Result<()> {
    lines(&rt)?;
    modes(&rt)?;
    weights(&rt)?;
    references(&rt)?;
    tie(&rt)?;
    transparent_word(&rt)?;
    window_marks(&rt)?;
    negative_point(&rt)?;
    reasons(&rt)?;
    bytes(&rt)?;
    halfwords(&rt)?;
    reads(&rt)
}
