// Writes samples part by part, each as many numbers as the buffer has room for. `rsr_samples_text` makes the text.
ghost use Rattle.std.specs.Prelude.{◌≤◌, not, length};
ghost use Rattle.rsr_samples_text.specs.inner.Room.{most_number};
ghost use Rattle.streaming.specs.Failure.{says_failed};
ghost use Rattle.rsr_samples.specs.inner.Written.{Ends};

use streaming::Failure;

// Writes a list. Each part begins where the one before ended, so together they are the text of the list.
pub(crate) fn write_parts(
    rt: &HostRuntime,
    list: &[i32],
    raw: bool,
    out: &mut [u8],
) -> Result<(), Failure>
    requires { most_number ≤ length out.old }
    ensures { Ends raw list.now out.new (not (says_failed result)) }
{
    let mut from = 0;
    // By index, since each part goes on by as many numbers as have room.
    while from < list.len() {
        let laid = rsr_samples_text::lay_out(list, from, raw, out);
        let end = laid.end;
        streaming::write_out(rt, &out[..end])?;
        from = laid.upto;
    }
    Ok(())
}
