ghost use Rattle.nz_member.specs.Members.{BasisIsElementList, ModulesAreElementLists, PartsAreOfMembers};

/// Where constraints describe the members of a system that has no line, `answer` gives the parts
/// of a member: the system's Hilbert basis, with its module generators where there is a level,
/// are the element lists that it asks for.
pub fn members_have_parts()
    ensures basis { BasisIsElementList }
    ensures modules { ModulesAreElementLists }
    ensures parts { PartsAreOfMembers }
{}
