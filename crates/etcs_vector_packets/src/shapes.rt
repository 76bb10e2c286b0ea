//! Each part, made of the words of a line.

use crate::parts::Shape;
use etcs_bodies::clone_all;
use etcs_packets::{
    Authority, BaliseAt, Condition, Differing, Level, LevelAck, Link, ModeSection, ReportAt,
    Section, Shown, Slope, Speed, TextFrame,
};
use etcs_track::Located;
use etcs_vars::BuildFault;
use etcs_vector_lines::Case;

/// The part of these arguments, each of which is the next one of the line; notes where its readers don't give them back.
macro_rules! part {
    ($case:ident, $part:ident: $($argument:ident)*) => {{
        $(let $argument = $case.next();)*
        let part = $part::new($($argument),*)?;
        same!($case, part: $($argument)*);
        Ok(part)
    }};
}

/// `D_LINK NID_C|- NID_BG Q_LINKORIENTATION Q_LINKREACTION Q_LOCACC`
impl Shape for Link {
    fn of_words(case: &mut Case) -> Result<Link, BuildFault> {
        part!(case, Link: d_link nid_c nid_bg q_linkorientation q_linkreaction q_locacc)
    }
}

/// `NID_C|- NID_BG`
impl Shape for BaliseAt {
    fn of_words(case: &mut Case) -> Result<BaliseAt, BuildFault> {
        part!(case, BaliseAt: nid_c nid_bg)
    }
}

/// `D_LOC Q_LGTLOC`
impl Shape for ReportAt {
    fn of_words(case: &mut Case) -> Result<ReportAt, BuildFault> {
        part!(case, ReportAt: d_loc q_lgtloc)
    }
}

/// `D_TRACKCOND L_TRACKCOND M_TRACKCOND`
impl Shape for Condition {
    fn of_words(case: &mut Case) -> Result<Condition, BuildFault> {
        part!(case, Condition: d_trackcond l_trackcond m_trackcond)
    }
}

/// `D_MAMODE M_MAMODE V_MAMODE L_MAMODE L_ACKMAMODE Q_MAMODE`
impl Shape for ModeSection {
    fn of_words(case: &mut Case) -> Result<ModeSection, BuildFault> {
        part!(case, ModeSection: d_mamode m_mamode v_mamode l_mamode l_ackmamode q_mamode)
    }
}

/// `D_GRADIENT Q_GDIR G_A`
impl Shape for Slope {
    fn of_words(case: &mut Case) -> Result<Slope, BuildFault> {
        part!(case, Slope: d_gradient q_gdir g_a)
    }
}

/// `M_LEVELTR NID_NTC|-`
impl Shape for Level {
    fn of_words(case: &mut Case) -> Result<Level, BuildFault> {
        part!(case, Level: m_leveltr nid_ntc)
    }
}

/// `M_LEVELTR NID_NTC|- L_ACKLEVELTR`
impl Shape for LevelAck {
    fn of_words(case: &mut Case) -> Result<LevelAck, BuildFault> {
        part!(case, LevelAck: m_leveltr nid_ntc l_ackleveltr)
    }
}

/// `LENGTH -`, or `LENGTH T_SECTIONTIMER D_SECTIONTIMERSTOPLOC`
impl Shape for Section {
    fn of_words(case: &mut Case) -> Result<Section, BuildFault> {
        part!(case, Section: length timer)
    }
}

/// `M_MODETEXTDISPLAY M_LEVELTEXTDISPLAY NID_NTC|-`
impl Shape for Shown {
    fn of_words(case: &mut Case) -> Result<Shown, BuildFault> {
        part!(case, Shown: m_modetextdisplay m_leveltextdisplay nid_ntc)
    }
}

/// `Q_DIFF CATEGORY V_DIFF`
impl Shape for Differing {
    fn of_words(case: &mut Case) -> Result<Differing, BuildFault> {
        part!(case, Differing: q_diff category v_diff)
    }
}

/// `D_STATIC V_STATIC Q_FRONT COUNT` and that many entries
impl Shape for Speed {
    fn of_words(case: &mut Case) -> Result<Speed, BuildFault> {
        let d_static = case.next();
        let v_static = case.next();
        let q_front = case.next();
        let entries: Vec<Differing> = list_of(case)?;
        let Ok(same) = clone_all(case.alloc(), entries.as_slice()) else {
            return Err(BuildFault::Memory);
        };
        match Speed::new(d_static, v_static, q_front, entries) {
            Ok(speed) => {
                same!(case, speed: d_static v_static q_front);
                case.check(speed.differing() == same.as_slice(), "another differing");
                Ok(speed)
            }
            Err((fault, back)) => {
                case.check(back == same, "others back");
                Err(fault)
            }
        }
    }
}

/// `COUNT`, that many sections, the end section, `-` or `T_ENDTIMER D_ENDTIMERSTARTLOC`, `-` or `D_DP V_RELEASEDP`, and
/// `-` or `D_STARTOL T_OL D_OL V_RELEASEOL`
impl Shape for Authority {
    fn of_words(case: &mut Case) -> Result<Authority, BuildFault> {
        let sections: Vec<Section> = list_of(case)?;
        let end = Section::of_words(case)?;
        let end_timer = case.next();
        let danger_point = case.next();
        let overlap = case.next();
        let Ok(same) = clone_all(case.alloc(), sections.as_slice()) else {
            return Err(BuildFault::Memory);
        };
        match Authority::new(sections, end, end_timer, danger_point, overlap) {
            Ok(authority) => {
                same!(case, authority: end end_timer danger_point overlap);
                case.check(authority.sections() == same.as_slice(), "another sections");
                Ok(authority)
            }
            Err((fault, back)) => {
                case.check(back == same, "others back");
                Err(fault)
            }
        }
    }
}

/// `Q_SCALE Q_TEXTCLASS Q_TEXTDISPLAY D_TEXTDISPLAY`, where it begins, `L_TEXTDISPLAY T_TEXTDISPLAY`, where it ends,
/// `Q_TEXTCONFIRM`, and `-`, or `Q_CONFTEXTDISPLAY -`, or `Q_CONFTEXTDISPLAY NID_TEXTMESSAGE NID_C NID_RBC`
impl Shape for TextFrame {
    fn of_words(case: &mut Case) -> Result<TextFrame, BuildFault> {
        let q_scale = case.next();
        let q_textclass = case.next();
        let q_textdisplay = case.next();
        let d_textdisplay = case.next();
        let start = Shown::of_words(case)?;
        let l_textdisplay = case.next();
        let t_textdisplay = case.next();
        let end = Shown::of_words(case)?;
        let q_textconfirm = case.next();
        let confirm = case.next();
        let frame = TextFrame::new(
            q_scale,
            q_textclass,
            q_textdisplay,
            d_textdisplay,
            start,
            l_textdisplay,
            t_textdisplay,
            end,
            q_textconfirm,
            confirm,
        )?;
        same!(case, frame: q_scale q_textclass q_textdisplay d_textdisplay start l_textdisplay t_textdisplay end q_textconfirm confirm);
        Ok(frame)
    }
}

/// `D_LRBG Q_DIRLRBG Q_DLRBG L_DOUBTOVER L_DOUBTUNDER Q_LENGTH L_TRAININT|- V_TRAIN Q_DIRTRAIN M_MODE M_LEVEL NID_NTC|-`
impl Shape for Located {
    fn of_words(case: &mut Case) -> Result<Located, BuildFault> {
        part!(case, Located: d_lrbg q_dirlrbg q_dlrbg l_doubtover l_doubtunder q_length l_trainint v_train q_dirtrain m_mode m_level nid_ntc)
    }
}

/// This many parts after their count.
fn list_of<P: Shape>(case: &mut Case) -> Result<Vec<P>, BuildFault> {
    let mut list = Vec::new(case.alloc());
    let mut refused = None;
    for _ in 0..case.byte() {
        match P::of_words(case) {
            Ok(part) => case.kept(list.push(part).is_ok()),
            Err(fault) => refused = Some(fault),
        }
    }
    match refused {
        Some(fault) => Err(fault),
        None => Ok(list),
    }
}
