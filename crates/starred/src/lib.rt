// Document 01's starred cases as one table (specs/Starred.antt), its sheets with document 02's closing line as another
// (specs/Sheets.antt), the lightest codewords of its codes as a third (specs/LightestCodewords.antt), the codes of 16 and 32 data bits as
// a fourth (specs/HsiaoWidths.antt), the last leaders of its codes as a fifth (specs/LastLeaders.antt), words sent interleaved as a sixth
// (specs/Bursts.antt), n and k at their limits with words of 32 places as a seventh (specs/LongestWords.antt), every cause with its number
// as an eighth (specs/Causes.antt), proved over the definitions that the contracts cite, nearly all by computation.
#![tactic(auto)]

ghost use Rattle.starred.specs.Starred.{Starred};
ghost use Rattle.starred.specs.Sheets.{Sheets};
ghost use Rattle.starred.specs.LightestCodewords.{LightestCodewords};
ghost use Rattle.starred.specs.HsiaoWidths.{HsiaoWidths};
ghost use Rattle.starred.specs.LastLeaders.{LastLeaders};
ghost use Rattle.starred.specs.Bursts.{Bursts};
ghost use Rattle.starred.specs.LongestWords.{LongestWords};
ghost use Rattle.starred.specs.Causes.{Causes};

// The examples hold: this does nothing, and the tables are what it promises.
pub fn examples_hold()
    ensures starred { Starred }
    ensures sheets { Sheets }
    ensures lightest_codewords { LightestCodewords }
    ensures hsiao_widths { HsiaoWidths }
    ensures last_leaders { LastLeaders }
    ensures bursts { Bursts }
    ensures longest_words { LongestWords }
    ensures causes { Causes }
{}
