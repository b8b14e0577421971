// The reply of listing the groups.
ghost use Rattle.std.specs.Prelude.{◌≡◌};
ghost use Rattle.group_entries.specs.Told.{told_groups, groups_shown};
ghost use Rattle.host_replies.specs.Replies.{group_list_of};

use group_labels::Groups;
use refusal::Fault;

// How many groups there are, and the group of each variable.
#[repr(C)]
#[derive(Clone, Copy)]
pub struct GroupList {
    pub kind: u64,
    pub number: u64,
    pub place: u64,
    pub count: u64,
    pub group: [u8; 32],
}

impl From<Result<Groups, Fault>> for GroupList {
    ghost from_gives = { λ answer reply. reply ≡ group_list_of (told_groups answer) (groups_shown answer) };

    fn from(answer: Result<Groups, Fault>) -> GroupList {
        match answer {
            Ok(r) => {
                let group = r.group;
                GroupList {
                    kind: 0,
                    number: 0,
                    place: 0,
                    count: r.count as u64,
                    group,
                }
            }
            Err(fault) => GroupList {
                kind: 2,
                number: u8::from(fault.reason) as u64,
                place: fault.place as u64,
                count: 0,
                group: [0; 32],
            },
        }
    }
}
