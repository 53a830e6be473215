// What network ACLs say of a packet.
ghost use Rattle.std.specs.Prelude.{◌≡◌, ◌++◌, IfOk, IfSome, IsTrue, OnOk};
ghost use Rattle.vpc_base.specs.declared.headers.Dir.TheVariants as dirs;
ghost use Rattle.vpc_model.specs.Sound.{is_subnet};
ghost use Rattle.walk_reasons.specs.Borders.{AreSubnets};
ghost use Rattle.walk_reasons.specs.Decisions.{judged, judged_in, judgement, verdict_at};
ghost use Rattle.walk_reasons.specs.Reasons.{decision_line, decision_lines};

use crate::borders::Borders;
use crate::lines::put_acl_line;
use fabric::Fabric;
use vpc_base::{Dir, Header, NoMemory};
use vpc_model::SubnetNo;

// Appends what the ACL of a subnet says; answers whether it lets the packet pass.
fn put_judgement(
    out: &mut Vec<u8>,
    f: &Fabric,
    dir: Dir,
    s: SubnetNo,
    h: &Header,
) -> Result<bool, NoMemory>
    requires { IsTrue (is_subnet f.now s) }
    ensures text { IfOk result (λ _. out.new.items ≡ out.old.items ++ decision_line f.now (judgement f.now dir h.now s)) }
    ensures passes { IfOk result (λ passes. let verdict = verdict_at f.now dir h.now s in passes ≡ verdict.0) }
{
    let n = f.network();
    let _ = n.description();
    let a = n.acl_of(s);
    let verdict = f.acl(a).decide(dir, h);
    put_acl_line(out, n.acl_at(a).id.bytes(), dir, verdict)?;
    Ok(verdict.0)
}

// Appends what the ACL of the subnet says that is entered, if one is.
fn put_judged_in(
    out: &mut Vec<u8>,
    f: &Fabric,
    entered: Option<SubnetNo>,
    h: &Header,
) -> Result<(), NoMemory>
    requires { IfSome entered (λ t. IsTrue (is_subnet f.now t)) }
    ensures { OnOk result (out.new.items ≡ out.old.items ++ decision_lines f.now (judged_in f.now h.now entered)) }
{
    match entered {
        None => Ok(()),
        Some(t) => {
            put_judgement(out, f, Dir::Inward, t, h)?;
            Ok(())
        }
    }
}

/// Appends what the ACLs at borders say of a packet, until one refuses it.
pub fn put_judged(
    out: &mut Vec<u8>,
    f: &Fabric,
    h: &Header,
    borders: Borders,
) -> Result<(), NoMemory>
    requires { AreSubnets f.now borders }
    ensures { OnOk result (out.new.items ≡ out.old.items ++ decision_lines f.now (judged f.now h.now borders)) }
{
    let Borders { left, entered } = borders;
    match left {
        None => put_judged_in(out, f, entered, h),
        Some(s) => {
            let passes = put_judgement(out, f, Dir::Outward, s, h)?;
            if passes {
                put_judged_in(out, f, entered, h)
            } else {
                Ok(())
            }
        }
    }
}
