// Lists each of the files c00 to c65 of its folder, under its name.
#![tactic(auto)]

use std::alloc::AllocError;
use std::fs;

fn list_file(rt: &HostRuntime, i: u8) -> Result<(), AllocError> {
    let name = format!(in rt.alloc(); "c{i:02}")?;
    let _ = println!(rt; "{name}");
    match fs::open(rt, &name) {
        Ok(mut file) => {
            let mut room = printout::room();
            let _ = printout::list(rt, &mut file, &mut room);
        }
        Err(e) => {
            let _ = eprintln!(rt; "{name}: {e}");
        }
    }
    Ok(())
}

fn main(rt: HostRuntime) -> Result<(), AllocError> {
    for i in 0..66u8 {
        list_file(&rt, i)?;
    }
    Ok(())
}
