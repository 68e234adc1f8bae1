//! Plans of texts.
use redodb_io::Watched;
use redodb_journal::Plan;
use redodb_names::Names;
use redodb_run::read_files;
use redodb_text::Fault;
use std::alloc::{AllocError, Global};

/// The files, as readers.
fn readers<'a>(alloc: Global, files: &[&'a str]) -> Result<Vec<Watched<&'a [u8]>>, AllocError> {
    let mut readers = Vec::new(alloc);
    for file in files {
        readers.push(Watched::new(file.as_bytes()))?;
    }
    Ok(readers)
}

/// The plan of sessions with these files; none if a file is faulty, or there is none or too many.
pub(crate) fn planned(alloc: Global, files: &[&str]) -> Result<Option<Plan>, AllocError> {
    let mut readers = readers(alloc, files)?;
    let mut names = Names::new(alloc);
    match read_files(alloc, &mut readers, &mut names) {
        Ok(scripts) => Ok(Plan::new(scripts, names).ok()),
        Err(Fault::Memory) => Err(AllocError),
        Err(_) => Ok(None),
    }
}
