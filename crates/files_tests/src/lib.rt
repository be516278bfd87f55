//! Tests of the files of a gateway, over the public calls of share_config, share_check, share_reload and share_loading,
//! and of its books on disk, over those of share_catalog, share_archive, share_verification and share_disk.
#![tactic(auto)]

#[cfg(test)]
mod tests;
