// The functions exported for C and Rust (include/vobsub.h): each calls the function of its name in `vobsub_c` and states its clause again. A crate is
// a library or an archive for C, not both, so these stand in a crate of their own.
#![tactic(auto)]

ghost use Rattle.grammar.specs.Reading.{wanted};
ghost use Rattle.vobsub_model.specs.Call.{lent};
ghost use Rattle.vobsub_c.specs.Answers.{BandsGiven, UnitExtracted, UnitUndisturbed, FieldDecoded, BodyFound, UnitDecoded, UnitWritten, IndexGiven, CueGiven, CueDecoded, CueUndisturbed};

// The bands in a payload, as words with 0 after them, and how many words they take.
#[unsafe(no_mangle)]
pub extern "C" fn vobsub_parse_chg_colcon_payload(
    payload: &[u8],
    bands: &mut [u16; 1536],
    count: &mut usize,
) -> u8
    ensures { BandsGiven payload.now bands.old count.old result bands.new count.new }
{
    vobsub_c::vobsub_parse_chg_colcon_payload(payload, bands, count)
}

// The unit of a stream at a position of the file, its length, and whether it is in the front of scratch (1) or in the
// file (0).
#[unsafe(no_mangle)]
pub extern "C" fn vobsub_extract_spu(
    file: &[u8],
    position: usize,
    stream: usize,
    scratch: &mut [u8],
    length: &mut usize,
    joined: &mut u8,
) -> u8
    ensures { UnitExtracted file.now position stream scratch.old length.old joined.old result scratch.new length.new joined.new
        × UnitUndisturbed file.now position stream scratch.old length.old joined.old result scratch.new length.new joined.new }
{
    vobsub_c::vobsub_extract_spu(file, position, stream, scratch, length, joined)
}

// Where the body of a PES starts.
#[unsafe(no_mangle)]
pub extern "C" fn vobsub_parse_pes_body(pes: &[u8], body: &mut usize) -> u8
    ensures { BodyFound pes.now body.old result body.new }
{
    vobsub_c::vobsub_parse_pes_body(pes, body)
}

// The rows start_row, start_row + 2, .. of a map of that width and height, how many codes they have, and how many of
// them are clipped.
#[unsafe(no_mangle)]
pub extern "C" fn vobsub_decode_rle_field(
    field: &[u8],
    width: usize,
    height: usize,
    start_row: usize,
    pixels: &mut [u8],
    codes: &mut usize,
    clipped: &mut usize,
) -> u8
    ensures { FieldDecoded field.now width height start_row pixels.old codes.old clipped.old result pixels.new codes.new clipped.new }
{
    vobsub_c::vobsub_decode_rle_field(field, width, height, start_row, pixels, codes, clipped)
}

// A unit's picture as colour numbers in the front of `pixels`, its bands as words with 0 after them, and the numbers of
// its record.
#[unsafe(no_mangle)]
pub extern "C" fn vobsub_parse_and_decode_spu(
    unit: &[u8],
    pixels: &mut [u8],
    bands: &mut [u16; 1536],
    numbers: &mut [usize; 17],
) -> u8
    ensures { UnitDecoded unit.now pixels.old bands.old numbers.old result pixels.new bands.new numbers.new }
{
    vobsub_c::vobsub_parse_and_decode_spu(unit, pixels, bands, numbers)
}

// A picture as a unit in the front of `out`, and the unit's length.
#[unsafe(no_mangle)]
pub extern "C" fn vobsub_build_demo_spu(
    width: usize,
    height: usize,
    indices: &[u8],
    out: &mut [u8],
    length: &mut usize,
) -> u8
    ensures { UnitWritten width height indices.now out.old length.old result out.new length.new }
{
    vobsub_c::vobsub_build_demo_spu(width, height, indices, out, length)
}

// Size, palette and cues of an index text: start and position of each cue go to the front of the lent buffers.
#[unsafe(no_mangle)]
pub extern "C" fn vobsub_parse_idx(
    text: &[u8],
    starts: &mut [i64],
    positions: &mut [u32],
    palette: &mut [u8; 48],
    numbers: &mut [usize; 4],
) -> u8
    ensures { IndexGiven text.now starts.old positions.old palette.old numbers.old result starts.new positions.new palette.new numbers.new }
{
    vobsub_c::vobsub_parse_idx(text, starts, positions, palette, numbers)
}

// One cue of an index text: its start, its other numbers, and the text's palette.
#[unsafe(no_mangle)]
pub extern "C" fn vobsub_pick_cue(
    text: &[u8],
    cue: usize,
    start: &mut i64,
    palette: &mut [u8; 48],
    numbers: &mut [u64; 4],
) -> u8
    ensures { CueGiven text.now cue start.old palette.old numbers.old result start.new palette.new numbers.new }
{
    vobsub_c::vobsub_pick_cue(text, cue, start, palette, numbers)
}

// One cue of a title in one stream, from index text and file: its canvas in the front of `canvas`, its index map in the
// front of `pixels`, its unit in the front of `scratch` where packets hold it, its start with its show and hide times,
// and its other numbers.
#[unsafe(no_mangle)]
pub extern "C" fn vobsub_decode_cue(
    text: &[u8],
    file: &[u8],
    cue: usize,
    stream: usize,
    scratch: &mut [u8],
    pixels: &mut [u8],
    canvas: &mut [u8],
    times: &mut [i64; 3],
    numbers: &mut [u64; 13],
) -> u8
    ensures { CueDecoded text.now file.now (wanted cue stream) (lent scratch.old pixels.old canvas.old) times.old numbers.old result (lent scratch.new pixels.new canvas.new) times.new numbers.new
        × CueUndisturbed text.now file.now (wanted cue stream) (lent scratch.old pixels.old canvas.old) times.old numbers.old result (lent scratch.new pixels.new canvas.new) times.new numbers.new }
{
    vobsub_c::vobsub_decode_cue(
        text, file, cue, stream, scratch, pixels, canvas, times, numbers,
    )
}
