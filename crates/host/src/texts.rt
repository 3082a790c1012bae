// A program in words, into a lent buffer, and the labels of a source.
ghost use Rattle.std.specs.Prelude.{◌≡◌};
ghost use Rattle.answer_number.specs.Texted.{texted};
ghost use Rattle.host_text.specs.Text.{list_from, map_from, mapped};

use host_text::list::list;
use host_text::map::labels;

#[unsafe(no_mangle)]
pub extern "C" fn nanocore_list(
    program: &[u8],
    start: u8,
    text: &mut [u8],
    values: &mut [usize; 2],
) -> usize
    ensures { texted result values.new text.new ≡ list_from program.now start text.old }
{
    list(program, start, text, values)
}

// The labels in the order of their first appearance: of each the place and the length of its name in the source, and its address.
#[unsafe(no_mangle)]
pub extern "C" fn nanocore_labels(
    source: &[u8],
    count: &mut usize,
    places: &mut [u16; 64],
    lengths: &mut [u16; 64],
    addresses: &mut [u8; 64],
    values: &mut [usize; 2],
) -> usize
    ensures { mapped result values.new count.new places.new lengths.new addresses.new
        ≡ map_from source.now }
{
    labels(source, count, places, lengths, addresses, values)
}
