//! What AP and XN of a region permit (ARM DDI 0403, "MPU Region Attribute and Size Register").

use std::fmt;

/// What AP grants to code of one privilege.
#[derive(Clone, Copy)]
pub enum Permission {
    Nothing,
    Read,
    ReadAndWrite,
    /// AP 100, which the standard reserves.
    Reserved,
}

/// Returns what AP grants to code of a privilege.
pub fn permission_of(access_permission: u8, privileged: bool) -> Permission {
    match (access_permission, privileged) {
        (0, _) => Permission::Nothing,
        (1, true) => Permission::ReadAndWrite,
        (1, false) => Permission::Nothing,
        (2, true) => Permission::ReadAndWrite,
        (2, false) => Permission::Read,
        (3, _) => Permission::ReadAndWrite,
        (5, true) => Permission::Read,
        (5, false) => Permission::Nothing,
        (6, _) => Permission::Read,
        (7, _) => Permission::Read,
        (_, _) => Permission::Reserved,
    }
}

/// What code of one privilege may do in a region, in words.
#[derive(Clone, Copy)]
pub struct PermissionWords {
    pub permission: Permission,
    /// XN: no instruction is fetched from the region.
    pub execute_never: bool,
}

impl fmt::Display for PermissionWords {
    fn fmt<W: fmt::Write>(&self, f: &mut fmt::Formatter<W>) -> fmt::Result {
        match (self.permission, self.execute_never) {
            (Permission::Nothing, _) => write!(f, "nothing"),
            (Permission::Read, false) => write!(f, "read, execute"),
            (Permission::Read, true) => write!(f, "read"),
            (Permission::ReadAndWrite, false) => write!(f, "read, write, execute"),
            (Permission::ReadAndWrite, true) => write!(f, "read, write"),
            (Permission::Reserved, _) => write!(f, "reserved"),
        }
    }
}
