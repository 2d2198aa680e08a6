//! Linear algebra over the integers: what the engines rest on, from divisors to the theorem of Farkas.
//! Its contract: the theorems that the functions below state, each a law of the definitions of `nz_spec`.
//! Below it stands `nz_spec` alone; it has no code that runs.
//! The engines cite it: elimination, double description, support forms, covers, walks, stages.
//! Start reading at `specs/Laws.antt`; `docs/LEMMAS.md` lists the lemmas by what they are for.
#![tactic(auto)]

ghost use Rattle.nz_linear.specs.Laws.{RaysExist, RaysGenerate, VanishOrDual, StartIsState, SkipKeeps, PivotKeeps, RankIsChosen, SpanIsWhereZero, StartHasColumns, PivotLeavesColumns, ColumnsAreOther, LeftAreEquations, EquationsExist, ChosenAreDualForms, DualFormIsUnique, CommonZeroIsLine, DualIsPointed, PointedIsPositive, ExtremeRaysExist, DualRaysStart, RayStepKeeps, NoRayTwice, RaysAreRays, RaysAreExtreme, RaysAreSupport, SupportDescribes, SupportIsNeeded, MembersAreStage, GcdExists, PrimitiveHasUnit, PrimitiveExists, PrimitiveIsUnique, FloorExists, FloorIsUnique, FloorsLeaveBox, ClearKeepsGroup, EquationCuts, CongruenceCuts, ClearKeepsDual, GroupByForms, ConeByForms, InsideByForms, ApartByForm, IrreducibleInCoordinates, ExtremeInCoordinates, LinesInCoordinates, SystemExtremeAreRays};

/// The theorem of Farkas: a cone by rows is a cone by rays, and the other way round.
pub fn rays_generate()
    ensures exist { RaysExist }
    ensures generate { RaysGenerate }
{}

/// Elimination: rows are taken one by one into a dual pair, which tells their rank, their span and whether they vanish together.
pub fn elimination_keeps_a_dual_pair()
    ensures start { StartIsState }
    ensures skip { SkipKeeps }
    ensures pivot { PivotKeeps }
    ensures outcome { VanishOrDual }
    ensures rank { RankIsChosen }
    ensures span { SpanIsWhereZero }
{}

/// What elimination leaves are the equations of the rows, and what it has chosen are their dual forms.
pub fn normal_forms_come_from_elimination()
    ensures start { StartHasColumns }
    ensures pivot { PivotLeavesColumns }
    ensures columns { ColumnsAreOther }
    ensures equations { LeftAreEquations }
    ensures exist { EquationsExist }
    ensures dual { ChosenAreDualForms }
    ensures unique { DualFormIsUnique }
{}

/// Rows vanish together at a line of their cone, or their cone has no line.
pub fn common_zeros_are_lines()
    ensures line { CommonZeroIsLine }
    ensures pointed { DualIsPointed }
    ensures positive { PointedIsPositive }
{}

/// Double description: the extreme rays of a pointed cone, row by row.
pub fn extreme_rays_are_kept()
    ensures exist { ExtremeRaysExist }
    ensures start { DualRaysStart }
    ensures step { RayStepKeeps }
    ensures once { NoRayTwice }
    ensures rays { RaysAreRays }
    ensures extreme { RaysAreExtreme }
{}

/// The support forms of a list are extreme rays; with the equations they describe its cone, and so the members of a system.
pub fn support_forms_describe()
    ensures rays { RaysAreSupport }
    ensures describe { SupportDescribes }
    ensures needed { SupportIsNeeded }
    ensures members { MembersAreStage }
{}

/// Divisors, and the one primitive vector along a vector.
pub fn primitive_vectors_are_unique()
    ensures divisor { GcdExists }
    ensures unit { PrimitiveHasUnit }
    ensures exist { PrimitiveExists }
    ensures unique { PrimitiveIsUnique }
{}

/// Floors, and what is left when they are taken away.
pub fn floors_leave_a_box()
    ensures exist { FloorExists }
    ensures unique { FloorIsUnique }
    ensures rest { FloorsLeaveBox }
{}

/// A lattice is cut by an equation or a congruence at one of its generators, once the others are cleared.
pub fn cuts_change_one_generator()
    ensures clear { ClearKeepsGroup }
    ensures equation { EquationCuts }
    ensures congruence { CongruenceCuts }
    ensures dual { ClearKeepsDual }
{}

/// The group, the cone and the inside of a simplex by its forms.
pub fn simplices_go_by_their_forms()
    ensures group { GroupByForms }
    ensures cone { ConeByForms }
    ensures inside { InsideByForms }
    ensures apart { ApartByForm }
{}

/// Coordinates over an independent base keep irreducible elements, extreme generators and lines.
pub fn coordinates_keep_elements()
    ensures irreducible { IrreducibleInCoordinates }
    ensures extreme { ExtremeInCoordinates }
    ensures lines { LinesInCoordinates }
    ensures system { SystemExtremeAreRays }
{}
