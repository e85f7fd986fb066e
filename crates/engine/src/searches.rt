// A search for detours as a C function.
ghost use Rattle.words.specs.Detours.{ReturnsDetours};

use words::detours::detours_result;

// One answer for each goal, no diverter twice, least total, within a budget of choices tried. Writes the choices tried,
// whether the search ended and, where a total was found, the answers' numbers to the start of out; the cells after them
// stay. The room is judged last.
#[unsafe(no_mangle)]
pub extern "C" fn tables_detours(space: &[u32], goals: &[u32], budget: u32, out: &mut [u32]) -> u64
    ensures { ReturnsDetours space.now goals.now budget result out.old out.new }
{
    detours_result(detours::detours(space, goals, budget), out)
}
