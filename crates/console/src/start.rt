//! A processor that is set going with an image.
ghost use Rattle.std.specs.Prelude.{◌≡◌, Err, IfOk, IfErr};
ghost use Rattle.std.specs.Fn.{FnOnceReturnsAtMut};
ghost use Rattle.image.specs.Reading.{verdict};
ghost use Rattle.console.specs.Start.{Started};

use engine::{Processor, Running};
use image::Fault;
use memory::Core;

/// What is done with a processor over 8192 zero words, which an image is loaded into and which goes until it is done;
/// or why the image is refused.
pub(crate) fn with_running<R, F: FnOnce(&mut Processor<Running, Core<'_>>) -> R>(
    bytes: &[u8],
    protect: bool,
    work: F,
) -> Result<R, Fault>
    requires { F.IsAlwaysCallable work }
    ensures done { IfOk result (λ r. Started bytes.now protect (λ old new. FnOnceReturnsAtMut F.FnOnce work old r new)) }
    ensures refused { IfErr result (λ x. verdict 8192 bytes.now ≡ Err x) }
{
    let mut words = [0; 8192];
    let mut idle = Processor::new(Core::new(&mut words));
    match idle.load(bytes) {
        Ok(_) => {
            let mut running = idle.go(protect);
            let done = work(&mut running);
            drop(running.halt().into_memory());
            Ok(done)
        }
        Err(fault) => {
            drop(idle.into_memory());
            Err(fault)
        }
    }
}
