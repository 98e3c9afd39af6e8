#![tactic(auto)]

// Prints what the frames trace.0 and trace.1 of the current folder hold.
use std::io::Write;
use std::{fs, io};
use viewer::view;

// The bytes of a file, or none where there is no such file.
fn contents(rt: &HostRuntime, name: &str) -> io::Result<Option<Vec<u8>>> {
    match fs::read(rt, name) {
        Ok(bytes) => Ok(Some(bytes)),
        Err(e) if e.kind() == io::ErrorKind::NotFound => Ok(None),
        Err(e) => Err(e),
    }
}

fn show(rt: &HostRuntime, name: &str) -> anyhow::Result<()> {
    let contents = contents(rt, name)?;
    let shown = view(rt.alloc(), name, contents.as_deref())?;
    rt.stdout().write_all(shown.as_slice())?;
    Ok(())
}

fn run(rt: &HostRuntime) -> anyhow::Result<()> {
    show(rt, "trace.0")?;
    show(rt, "trace.1")
}

fn main(rt: HostRuntime) -> anyhow::Result<()> {
    run(&rt)
}
