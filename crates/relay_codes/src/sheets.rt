// The whole run: the bytes of a code sheet to the bytes printed.
ghost use Rattle.sheet_run.specs.Run.{Ran};

// Writes the output for a sheet into a list of at least 20,480 bytes and returns its length; a shorter list is left as it was, and 0
// returned.
#[unsafe(no_mangle)]
pub extern "C" fn relay_run(sheet: &[u8], out: &mut [u8]) -> usize
    ensures { Ran sheet.now out.old result out.new }
{
    sheet_run::run(sheet, out).unwrap_or(0)
}
