//! Writing a manifest.
ghost use Rattle.std.specs.Prelude.{◌≡◌, ◌<◌, ◌≤◌, ◌^◌, ◌++◌, length, All, IfOk, OnOk};
ghost use Rattle.lethe_base.specs.Configuration.{IsConfig};
ghost use Rattle.lethe_manifest.specs.Manifests.{manifest_bytes, head_bytes, times_bytes, sizes_bytes, counts_bytes, cert_bytes, certificate_bytes, erases_bytes, segments_bytes, file_bytes, files_bytes, parts_bytes, HasSpelling, HasLowLevel};

use crate::{Cited, LastCert, Manifest};
use lethe_base::{Fields, NoMemory, Pending, Pick, write_erase};
use std::alloc::Global;

/// The manifest's one spelling.
#[tactic(auto, unfolding(crate::specs::Manifests::manifest_bytes))]
pub fn write_manifest(alloc: Global, manifest: &Manifest) -> Result<Vec<u8>, NoMemory>
    requires { HasSpelling manifest.now }
    ensures { IfOk result (λ bytes. bytes.items ≡ manifest_bytes manifest.now) }
{
    let mut out = Vec::with_capacity(alloc, 71)?;
    write_head(&mut out, manifest.no)?;
    write_times(&mut out, manifest.config.fields())?;
    write_sizes(&mut out, manifest.config.fields())?;
    write_counts(&mut out, manifest)?;
    write_parts(&mut out, manifest)?;
    Ok(out)
}

#[tactic(auto, unfolding(crate::specs::Manifests::head_bytes))]
fn write_head(out: &mut Vec<u8>, no: u64) -> Result<(), NoMemory>
    ensures { OnOk result (out.new.items ≡ out.old.items ++ head_bytes no) }
{
    out.extend_from_slice(b"LM\x01")?;
    out.extend_from_slice(&no.to_be_bytes())?;
    Ok(())
}

#[tactic(auto, unfolding(crate::specs::Manifests::times_bytes))]
fn write_times(out: &mut Vec<u8>, fields: &Fields) -> Result<(), NoMemory>
    requires { IsConfig fields.now }
    ensures { OnOk result (out.new.items ≡ out.old.items ++ times_bytes fields.now) }
{
    out.extend_from_slice(&fields.threshold.to_be_bytes())?;
    out.extend_from_slice(&[fields.ratio as u8, fields.levels as u8])?;
    Ok(())
}

#[tactic(auto, unfolding(crate::specs::Manifests::sizes_bytes))]
fn write_sizes(out: &mut Vec<u8>, fields: &Fields) -> Result<(), NoMemory>
    requires { IsConfig fields.now }
    ensures { OnOk result (out.new.items ≡ out.old.items ++ sizes_bytes fields.now) }
{
    out.extend_from_slice(&(fields.page as u16).to_be_bytes())?;
    out.push(fields.tile as u8)?;
    out.extend_from_slice(&(fields.file as u16).to_be_bytes())?;
    out.extend_from_slice(&(fields.buffer as u16).to_be_bytes())?;
    out.push(match fields.pick {
        Pick::So => 0,
        Pick::Sd => 1,
    })?;
    Ok(())
}

#[tactic(auto, unfolding(crate::specs::Manifests::counts_bytes))]
fn write_counts(out: &mut Vec<u8>, manifest: &Manifest) -> Result<(), NoMemory>
    ensures { OnOk result (out.new.items ≡ out.old.items ++ counts_bytes manifest.now) }
{
    out.extend_from_slice(&manifest.clock.to_be_bytes())?;
    out.extend_from_slice(&manifest.count.to_be_bytes())?;
    out.extend_from_slice(&manifest.next.to_be_bytes())?;
    Ok(())
}

// The certificate, and each list behind its length.
#[tactic(auto, unfolding(crate::specs::Manifests::parts_bytes))]
fn write_parts(out: &mut Vec<u8>, manifest: &Manifest) -> Result<(), NoMemory>
    requires { HasSpelling manifest.now }
    ensures { OnOk result (out.new.items ≡ out.old.items ++ parts_bytes manifest.now) }
{
    write_certificate(out, &manifest.certificate)?;
    write_erases(out, manifest.erases.items())?;
    write_segments(out, manifest.segments.items())?;
    write_files(out, manifest.files.items())?;
    Ok(())
}

fn write_certificate(out: &mut Vec<u8>, certificate: &Option<LastCert>) -> Result<(), NoMemory>
    ensures { OnOk result (out.new.items ≡ out.old.items ++ certificate_bytes certificate.now) }
{
    match certificate {
        None => out.push(0)?,
        Some(cert) => {
            out.push(1)?;
            write_cert(out, cert)?;
        }
    }
    Ok(())
}

#[tactic(auto, unfolding(crate::specs::Manifests::cert_bytes))]
fn write_cert(out: &mut Vec<u8>, cert: &LastCert) -> Result<(), NoMemory>
    ensures { OnOk result (out.new.items ≡ out.old.items ++ cert_bytes cert.now) }
{
    out.extend_from_slice(&cert.number.to_be_bytes())?;
    out.extend_from_slice(&cert.clock.to_be_bytes())?;
    out.extend_from_slice(&cert.before.to_be_bytes())?;
    Ok(())
}

fn write_erases(out: &mut Vec<u8>, erases: &[Pending]) -> Result<(), NoMemory>
    requires { length erases.now < 2 ^ 32 }
    ensures { OnOk result (out.new.items ≡ out.old.items ++ erases_bytes erases.now) }
{
    out.extend_from_slice(&(erases.len() as u32).to_be_bytes())?;
    for erase in erases {
        write_erase(out, erase)?;
    }
    Ok(())
}

fn write_segments(out: &mut Vec<u8>, segments: &[u64]) -> Result<(), NoMemory>
    requires { length segments.now ≤ 2 }
    ensures { OnOk result (out.new.items ≡ out.old.items ++ segments_bytes segments.now) }
{
    out.push(segments.len() as u8)?;
    for segment in segments {
        out.extend_from_slice(&segment.to_be_bytes())?;
    }
    Ok(())
}

fn write_files(out: &mut Vec<u8>, files: &[Cited]) -> Result<(), NoMemory>
    requires few { length files.now < 2 ^ 32 }
    requires levels { All HasLowLevel files.now }
    ensures { OnOk result (out.new.items ≡ out.old.items ++ files_bytes files.now) }
{
    out.extend_from_slice(&(files.len() as u32).to_be_bytes())?;
    for file in files {
        write_file(out, file)?;
    }
    Ok(())
}

#[tactic(auto, unfolding(crate::specs::Manifests::file_bytes))]
fn write_file(out: &mut Vec<u8>, file: &Cited) -> Result<(), NoMemory>
    requires { HasLowLevel file.now }
    ensures { OnOk result (out.new.items ≡ out.old.items ++ file_bytes file.now) }
{
    out.push(file.level as u8)?;
    out.extend_from_slice(&file.no.to_be_bytes())?;
    out.extend_from_slice(&file.swept.to_be_bytes())?;
    out.extend_from_slice(&file.digest)?;
    Ok(())
}
